//! Random command files.
use crate::draws::Draws;
use crate::keys::Keys;
use crate::player::ALL;
use ca_text::{put, put_number};
use std::alloc::{AllocError, Global};

// A line, and how often it is drawn. In it `@` stands for a key, `%` for a small number, `!` for a number that no other line of the file has, `*` for
// the match specification of all objects, `^` for a long binary, `&` for one that a key may be and no part of an object, and `~` for one that is too
// long for a key.
type Form = (&'static str, u32);

// Lines of all commands, most of which are answered without an error where their key is in the table.
const FORMS: [Form; 29] = [
    ("insert {@,%,!}", 12),
    ("insert {@,%,!,[%,{!}]}", 2),
    ("insert {@,%,!,^}", 1),
    ("insert_new {@,%,!}", 5),
    ("lookup @", 5),
    ("member @", 3),
    ("delete @", 6),
    ("take @", 4),
    ("update_counter @ {2,1}", 3),
    ("update_counter @ %", 1),
    ("update_counter @ [{2,%},{2,-3,0,9}]", 1),
    ("update_element @ {3,!}", 4),
    ("first", 3),
    ("last", 3),
    ("next @", 3),
    ("prev @", 3),
    ("select *", 2),
    ("select [{{'$1','$2','_'},[{'>','$2',%}],['$1']}]", 2),
    ("select [{{@,'_','$1'},[],['$1']}]", 1),
    (
        "select [{{@,'$2','$1'},[],[{{'$1','$2'}}]},{{'_','_','$1'},[],['$1']}]",
        1,
    ),
    ("select_range @ @ *", 4),
    ("select_range @ @ [{{'$1','_','$2'},[],[['$1'|'$2']]}]", 2),
    ("batch * 1", 1),
    ("batch * 3", 2),
    ("batch [{{'_','$1','$2'},[{'<','$1',%}],['$2']}] 2", 2),
    ("batch [{{@,'_','$1'},[],['$1']}] 2", 1),
    ("more", 8),
    ("insert {%,%}", 1),
    ("insert {{@},!,%}", 1),
];

// Lines that are mostly errors.
const ODD_FORMS: [Form; 24] = [
    ("insert @", 1),
    ("insert {}", 1),
    ("insert {&,1}", 1),
    ("insert {@,1,!,~}", 1),
    ("insert_new []", 1),
    ("insert_new {~}", 1),
    ("lookup &", 1),
    ("lookup ~", 1),
    ("member ~", 1),
    ("delete ~", 1),
    ("take ~", 1),
    ("update_counter @ {1,1}", 1),
    ("update_counter @ {2,9223372036854775807}", 1),
    ("update_counter @ []", 1),
    ("update_counter ~ {2,1}", 1),
    ("update_element @ {1,!}", 1),
    ("update_element @ {9,!}", 1),
    ("update_element @ {3,&}", 1),
    ("next ~", 1),
    ("prev ~", 1),
    ("select [{'$1',[{'$1'}],['$2']}]", 1),
    ("select_range @ ~ *", 1),
    ("batch * 0", 1),
    ("batch @ @", 1),
];

/// What random lines are made of: one of so many lines is mostly an error, and none where that is 0.
#[derive(Drop)]
pub(crate) struct Maker {
    draws: Draws,
    keys: Keys,
    odd: u32,
    last: u32,
}

impl Maker {
    /// Lines of another order for each start, whose numbers are greater than this one.
    pub(crate) fn new(start: u32, keys: Keys, odd: u32, last: u32) -> Maker {
        Maker {
            draws: Draws::new(start),
            keys,
            odd,
            last,
        }
    }

    /// A command file of so many lines.
    pub(crate) fn file(&mut self, alloc: Global, lines: u32) -> Result<Vec<u8>, AllocError> {
        let mut file = Vec::new(alloc);
        for _ in 0..lines {
            let form = self.form();
            self.put_line(form, &mut file)?;
        }
        Ok(file)
    }

    /// A number below this one, or 0.
    pub(crate) fn below(&mut self, bound: u32) -> u32 {
        self.draws.below(bound)
    }

    fn form(&mut self) -> &'static str {
        if self.odd > 0 && self.draws.below(self.odd) == 0 {
            drawn(&ODD_FORMS, &mut self.draws)
        } else {
            drawn(&FORMS, &mut self.draws)
        }
    }

    fn put_line(&mut self, form: &str, into: &mut Vec<u8>) -> Result<(), AllocError> {
        self.last = self.last.wrapping_add(1);
        for byte in form.bytes() {
            match byte {
                b'@' => self.keys.put_one(&mut self.draws, into)?,
                b'%' => put_number(u64::from(self.draws.below(10)), into)?,
                b'!' => put_number(u64::from(self.last), into)?,
                b'*' => put(ALL, into)?,
                b'^' => put_long(600, into)?,
                b'&' => put_long(995, into)?,
                b'~' => put_long(1_100, into)?,
                _ => into.push(byte)?,
            }
        }
        Ok(into.push(b'\n')?)
    }
}

// A binary of so many bytes.
fn put_long(count: u32, into: &mut Vec<u8>) -> Result<(), AllocError> {
    put(b"<<\"", into)?;
    for _ in 0..count {
        into.push(b'x')?;
    }
    put(b"\">>", into)
}

// One of these lines.
fn drawn(forms: &[Form], draws: &mut Draws) -> &'static str {
    let mut all = 0_u32;
    for (_, often) in forms {
        all = all.wrapping_add(*often);
    }
    let mut left = draws.below(all);
    for (form, often) in forms {
        if left < *often {
            return form;
        }
        left -= *often;
    }
    "more"
}
