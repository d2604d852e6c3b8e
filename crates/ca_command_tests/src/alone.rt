//! Random files, played by one client on a tree and on the table of a list.
use crate::counts::Counts;
use crate::keys::{KINDS, Keys};
use crate::made::Maker;
use crate::player::{lines_of, play, play_list};
use crate::trees::{few_of, is_joined, tree_of};
use ca_cmd::Line;
use ca_ets::ListTable;
use ca_replace::TreeStore;
use ca_table::Table;
use ca_text::put;
use std::alloc::{AllocError, Global};
use std::test::Fail;

const FILES: u32 = 2_000;

const LINES: u32 = 100;

// The file of this number, which ends with a line that reads the whole table.
fn file_of(alloc: Global, number: u32) -> Result<Vec<u8>, AllocError> {
    let keys = Keys {
        count: 8 + number % 33,
        kind: number % KINDS,
    };
    let mut file = Maker::new(number, keys, 8, 0).file(alloc, LINES)?;
    put(b"select [{'_',[],['$_']}]", &mut file)?;
    Ok(file)
}

// The answers to these lines on a new tree of a sort, and how many bases were split and joined.
fn tree_answers(
    alloc: Global,
    number: u32,
    lines: &[Line],
) -> Result<(Vec<u8>, (u64, u64)), AllocError> {
    let Ok(mut tree) = tree_of(alloc, 1_024, 1, few_of(number)) else {
        return Err(AllocError);
    };
    let Ok(pass) = tree.enroll(alloc) else {
        return Err(AllocError);
    };
    let mut table = Table::new(TreeStore::new(&tree, pass), 1);
    let mut answers = Vec::new(alloc);
    play(alloc, &mut table, lines, &mut answers)?;
    Ok((answers, table.into_store().adapted()))
}

fn list_answers(alloc: Global, lines: &[Line]) -> Result<Vec<u8>, AllocError> {
    let mut list = ListTable::new(alloc, 1);
    let mut answers = Vec::new(alloc);
    play_list(alloc, &mut list, lines, &mut answers)?;
    Ok(answers)
}

#[test]
fn a_tree_answers_as_a_list(rt: HostRuntime) -> Result<(), Fail> {
    let alloc = rt.alloc();
    let mut counts = Counts::new();
    for tree in 0..4_u32 {
        let (mut split, mut joined) = (0_u64, 0_u64);
        for turn in 0..FILES / 4 {
            let number = turn * 4 + tree;
            let file = file_of(alloc, number)?;
            let lines = lines_of(alloc, file.as_slice())?;
            let listed = list_answers(alloc, lines.as_slice())?;
            let (found, (splits, joins)) = tree_answers(alloc, tree, lines.as_slice())?;
            assert!(rt; found.as_slice() == listed.as_slice(), "file {number}");
            counts.add(lines.as_slice(), listed.as_slice());
            split = split.saturating_add(splits);
            joined = joined.saturating_add(joins);
        }
        assert!(rt; split > u64::from(FILES / 4), "tree {tree}");
        assert!(rt;
            (joined > u64::from(FILES / 20)) == is_joined(tree),
            "tree {tree}"
        );
    }
    assert!(rt; counts.least() > FILES);
    assert!(rt; counts.errors() > FILES);
    Ok(())
}
