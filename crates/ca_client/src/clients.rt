//! Clients that play on threads, each on a table of its own.
ghost use Rattle.std.specs.Prelude.{◌≡◌, length};
ghost use Rattle.ca_client.specs.Clients.{HavePlayed, IsBehind, IsTended};

use crate::gate::Gate;
use crate::giving::give_back;
use crate::playing::play;
use ca_cmd::{Answers, Lines};
use ca_model::OrderedStore;
use ca_table::{Follower, Table, Unfollowed, Upkeep};
use std::alloc::Global;
use std::sync::Wait;
use std::sync::atomic::{AtomicUsize, Ordering};
use std::thread::{Threads, for_each_mut};

// On how many threads clients play at most.
const MOST_THREADS: usize = 64;

/// A client: its number, counted from 1, its table, its lines, and its answers as text, once it has played. There are none where memory wasn't found.
#[derive(Drop)]
pub struct Client<'l, S: OrderedStore + Drop, W: Follower<S> = Unfollowed> {
    pub number: u32,
    pub table: Table<S, W>,
    pub lines: &'l Lines,
    pub answers: Option<Answers>,
}

impl<S: OrderedStore + Drop, W: Follower<S>> Client<'_, S, W> {
    // Plays its lines.
    fn play<R: Wait, G: Gate>(&mut self, rt: &R, alloc: Global, gate: &G)
        ensures { IsBehind S.knows S.promises W.asked self.old self.new }
    {
        let played = play(rt, alloc, self.number, &mut self.table, self.lines, gate);
        self.answers = match played {
            Ok(answers) => Some(answers),
            Err(_) => None,
        };
    }

    // Tends its store once it has played, while others play still.
    fn end<U: Upkeep<S>>(&mut self, upkeep: &U, playing: &AtomicUsize)
        ensures { IsTended S.knows self.old self.new }
    {
        playing.fetch_sub(1, Ordering::SeqCst);
        give_back(&mut self.table, upkeep, playing);
    }
}

/// Plays the clients, each on a thread of its own as far as threads can be made, and else behind another one. One that finds no memory has no answers, and
/// the others play to their ends. At a client's end its store is tended, while others play still.
#[tactic(auto, using(crate::proofs::Tended::behind_tended))]
pub fn play_all<
    R: Threads + Wait + Sync,
    S: OrderedStore + Drop + Send,
    W: Follower<S> + Send,
    G: Gate + Sync,
    U: Upkeep<S> + Sync,
>(rt: &R, alloc: Global, clients: &mut [Client<'_, S, W>], gate: &G, upkeep: &U)
    ensures same { length clients.new ≡ length clients.old }
    ensures played { HavePlayed S.knows S.promises W.asked clients.old clients.new }
{
    let playing = &AtomicUsize::new(clients.len());
    for_each_mut(
        rt,
        clients,
        MOST_THREADS,
        &|_place, client: &mut Client<'_, S, W>|
            ensures { IsBehind S.knows S.promises W.asked client.entry.now client.exit.now }
        {
            client.play(rt, alloc, gate);
            client.end(upkeep, playing);
        },
    );
}
