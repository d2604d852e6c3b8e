//! Rows of what calls of a table come to over a store with a script.

/// A script, the commands, in which `*` stands for the specification of all objects, and their answers with the table at the end. A script's
/// turns are parted by `/`. In a turn stand the edits of others before its call, the word of its refusal or none, and the edits of others
/// behind its call, parted by `|`.
pub(crate) type Row = (&'static str, &'static str, &'static str);

/// `take` reads an object, and then removes it.
pub(crate) const TAKES: [Row; 14] = [
    ("|| / ||", "take 1", "[{1,10}];[{2,20}];"),
    (
        "||insert {1,11} / ||",
        "take 1",
        "overtaken;[{1,11},{2,20}];",
    ),
    (
        "|| / insert {1,11}||",
        "take 1",
        "overtaken;[{1,11},{2,20}];",
    ),
    (
        "||insert {1,11} / ||insert {1,10}",
        "take 1",
        "overtaken;[{1,10},{2,20}];",
    ),
    (
        "||insert {1,11} / insert {1,10}||",
        "take 1",
        "[{1,10}];[{2,20}];",
    ),
    (
        "||delete 1 / insert {1,10}||",
        "take 1",
        "[{1,10}];[{2,20}];",
    ),
    (
        "||delete 1 / insert {1,12}||",
        "take 1",
        "overtaken;[{1,12},{2,20}];",
    ),
    ("||delete 1 / ||", "take 1", "[];[{2,20}];"),
    (
        "|| / delete 1||insert {1,12}",
        "take 1",
        "[];[{1,12},{2,20}];",
    ),
    (
        "||insert {2,21} / insert {3,30}||",
        "take 1",
        "[{1,10}];[{2,21},{3,30}];",
    ),
    ("insert {1,11}|| / ||", "take 1", "[{1,11}];[{2,20}];"),
    ("delete 1|| / ||", "take 1", "[];[{2,20}];"),
    (
        "|| / ||insert {1,12}",
        "take 1",
        "[{1,10}];[{1,12},{2,20}];",
    ),
    (
        "||insert {3,30} / ||",
        "take 3",
        "[];[{1,10},{2,20},{3,30}];",
    ),
];

/// Calls of one turn on a key.
pub(crate) const CALLS: [Row; 30] = [
    ("insert {1,11}||", "insert {1,99}", "true;[{1,99},{2,20}];"),
    ("delete 1||", "insert {1,99}", "true;[{1,99},{2,20}];"),
    ("||insert {1,12}", "insert {1,99}", "true;[{1,12},{2,20}];"),
    ("||delete 3", "insert {3,99}", "true;[{1,10},{2,20}];"),
    ("||", "insert_new {3,99}", "true;[{1,10},{2,20},{3,99}];"),
    (
        "insert {3,30}||",
        "insert_new {3,99}",
        "false;[{1,10},{2,20},{3,30}];",
    ),
    (
        "||insert {3,30}",
        "insert_new {3,99}",
        "true;[{1,10},{2,20},{3,30}];",
    ),
    (
        "insert {3,30}; delete 3||",
        "insert_new {3,99}",
        "true;[{1,10},{2,20},{3,99}];",
    ),
    ("delete 1||", "insert_new {1,99}", "true;[{1,99},{2,20}];"),
    ("||delete 1", "insert_new {1,99}", "false;[{2,20}];"),
    (
        "insert {1,11}||insert {1,12}",
        "lookup 1",
        "[{1,11}];[{1,12},{2,20}];",
    ),
    ("delete 1||", "lookup 1", "[];[{2,20}];"),
    ("||insert {3,30}", "lookup 3", "[];[{1,10},{2,20},{3,30}];"),
    (
        "insert {3,30}||delete 3",
        "member 3",
        "true;[{1,10},{2,20}];",
    ),
    (
        "delete 1||insert {1,12}",
        "member 1",
        "false;[{1,12},{2,20}];",
    ),
    ("insert {1,11}||", "delete 1", "true;[{2,20}];"),
    ("||insert {1,12}", "delete 1", "true;[{1,12},{2,20}];"),
    ("insert {3,30}||", "delete 3", "true;[{1,10},{2,20}];"),
    (
        "||insert {3,30}",
        "delete 3",
        "true;[{1,10},{2,20},{3,30}];",
    ),
    ("delete 2; delete 4||", "delete 3", "true;[{1,10}];"),
    ("||", "update_counter 1 {2,5}", "15;[{1,15},{2,20}];"),
    (
        "insert {1,11}||insert {1,12}",
        "update_counter 1 {2,5}",
        "16;[{1,12},{2,20}];",
    ),
    (
        "delete 1||",
        "update_counter 1 {2,5}",
        "error badarg;[{2,20}];",
    ),
    ("||delete 1", "update_counter 1 {2,5}", "15;[{2,20}];"),
    (
        "insert {3,30}||",
        "update_counter 3 {2,5}",
        "35;[{1,10},{2,20},{3,35}];",
    ),
    ("delete 1||", "update_element 1 {2,99}", "false;[{2,20}];"),
    (
        "insert {3,30}||",
        "update_element 3 {2,99}",
        "true;[{1,10},{2,20},{3,99}];",
    ),
    (
        "||insert {3,30}",
        "update_element 3 {2,99}",
        "false;[{1,10},{2,20},{3,30}];",
    ),
    (
        "insert {3,30}||delete 3",
        "update_counter 3 []",
        "[];[{1,10},{2,20}];",
    ),
    (
        "insert {1,11}||insert {3,30}",
        "update_element 1 {9,x}",
        "error badarg;[{1,11},{2,20},{3,30}];",
    ),
];

/// Walks by key.
pub(crate) const WALKS: [Row; 30] = [
    ("||", "first", "1;[{1,10},{2,20}];"),
    ("||", "last", "2;[{1,10},{2,20}];"),
    ("||", "next 1", "2;[{1,10},{2,20}];"),
    ("||", "next 2", "'$end_of_table';[{1,10},{2,20}];"),
    ("||", "prev 2", "1;[{1,10},{2,20}];"),
    ("||", "prev 3", "2;[{1,10},{2,20}];"),
    (
        "insert {3,30}; delete 2||insert {3,31}",
        "first",
        "1;[{1,10},{3,31}];",
    ),
    (
        "insert {3,30}; delete 2||insert {3,31}",
        "last",
        "3;[{1,10},{3,31}];",
    ),
    (
        "insert {3,30}; delete 2||insert {3,31}",
        "next 1",
        "3;[{1,10},{3,31}];",
    ),
    (
        "insert {3,30}; delete 2||insert {3,31}",
        "next 2",
        "3;[{1,10},{3,31}];",
    ),
    (
        "insert {3,30}; delete 2||insert {3,31}",
        "prev 2",
        "1;[{1,10},{3,31}];",
    ),
    (
        "insert {3,30}; delete 2||insert {3,31}",
        "prev 3",
        "1;[{1,10},{3,31}];",
    ),
    (
        "delete 1; delete 2||insert {2,21}; insert {1,11}",
        "first",
        "'$end_of_table';[{1,11},{2,21}];",
    ),
    (
        "delete 1; delete 2||insert {2,21}; insert {1,11}",
        "last",
        "'$end_of_table';[{1,11},{2,21}];",
    ),
    (
        "delete 1; delete 2||insert {2,21}; insert {1,11}",
        "next 1",
        "'$end_of_table';[{1,11},{2,21}];",
    ),
    (
        "delete 1; delete 2||insert {2,21}; insert {1,11}",
        "next 2",
        "'$end_of_table';[{1,11},{2,21}];",
    ),
    (
        "delete 1; delete 2||insert {2,21}; insert {1,11}",
        "prev 2",
        "'$end_of_table';[{1,11},{2,21}];",
    ),
    (
        "delete 1; delete 2||insert {2,21}; insert {1,11}",
        "prev 3",
        "'$end_of_table';[{1,11},{2,21}];",
    ),
    (
        "insert {0,5}; insert {4,40}||delete 2; insert {3,30}",
        "first",
        "0;[{0,5},{1,10},{3,30},{4,40}];",
    ),
    (
        "insert {0,5}; insert {4,40}||delete 2; insert {3,30}",
        "last",
        "4;[{0,5},{1,10},{3,30},{4,40}];",
    ),
    (
        "insert {0,5}; insert {4,40}||delete 2; insert {3,30}",
        "next 1",
        "2;[{0,5},{1,10},{3,30},{4,40}];",
    ),
    (
        "insert {0,5}; insert {4,40}||delete 2; insert {3,30}",
        "next 2",
        "4;[{0,5},{1,10},{3,30},{4,40}];",
    ),
    (
        "insert {0,5}; insert {4,40}||delete 2; insert {3,30}",
        "prev 2",
        "1;[{0,5},{1,10},{3,30},{4,40}];",
    ),
    (
        "insert {0,5}; insert {4,40}||delete 2; insert {3,30}",
        "prev 3",
        "2;[{0,5},{1,10},{3,30},{4,40}];",
    ),
    (
        "insert {1,11}||insert {1,12}; insert {0,7}",
        "first",
        "1;[{0,7},{1,12},{2,20}];",
    ),
    (
        "insert {1,11}||insert {1,12}; insert {0,7}",
        "last",
        "2;[{0,7},{1,12},{2,20}];",
    ),
    (
        "insert {1,11}||insert {1,12}; insert {0,7}",
        "next 1",
        "2;[{0,7},{1,12},{2,20}];",
    ),
    (
        "insert {1,11}||insert {1,12}; insert {0,7}",
        "next 2",
        "'$end_of_table';[{0,7},{1,12},{2,20}];",
    ),
    (
        "insert {1,11}||insert {1,12}; insert {0,7}",
        "prev 2",
        "1;[{0,7},{1,12},{2,20}];",
    ),
    (
        "insert {1,11}||insert {1,12}; insert {0,7}",
        "prev 3",
        "2;[{0,7},{1,12},{2,20}];",
    ),
];

/// Runs: all objects, or those between two keys.
pub(crate) const RUNS: [Row; 20] = [
    ("||", "select *", "[{1,10},{2,20}];[{1,10},{2,20}];"),
    (
        "||",
        "select_range 1 3 *",
        "[{1,10},{2,20}];[{1,10},{2,20}];",
    ),
    ("||", "select_range 2 2 *", "[{2,20}];[{1,10},{2,20}];"),
    ("||", "select_range 3 1 *", "[];[{1,10},{2,20}];"),
    (
        "insert {3,30}; delete 2||insert {3,31}",
        "select *",
        "[{1,10},{3,30}];[{1,10},{3,31}];",
    ),
    (
        "insert {3,30}; delete 2||insert {3,31}",
        "select_range 1 3 *",
        "[{1,10},{3,30}];[{1,10},{3,31}];",
    ),
    (
        "insert {3,30}; delete 2||insert {3,31}",
        "select_range 2 2 *",
        "[];[{1,10},{3,31}];",
    ),
    (
        "insert {3,30}; delete 2||insert {3,31}",
        "select_range 3 1 *",
        "[];[{1,10},{3,31}];",
    ),
    (
        "delete 1; delete 2||insert {2,21}; insert {1,11}",
        "select *",
        "[];[{1,11},{2,21}];",
    ),
    (
        "delete 1; delete 2||insert {2,21}; insert {1,11}",
        "select_range 1 3 *",
        "[];[{1,11},{2,21}];",
    ),
    (
        "delete 1; delete 2||insert {2,21}; insert {1,11}",
        "select_range 2 2 *",
        "[];[{1,11},{2,21}];",
    ),
    (
        "delete 1; delete 2||insert {2,21}; insert {1,11}",
        "select_range 3 1 *",
        "[];[{1,11},{2,21}];",
    ),
    (
        "insert {0,5}; insert {4,40}||delete 2; insert {3,30}",
        "select *",
        "[{0,5},{1,10},{2,20},{4,40}];[{0,5},{1,10},{3,30},{4,40}];",
    ),
    (
        "insert {0,5}; insert {4,40}||delete 2; insert {3,30}",
        "select_range 1 3 *",
        "[{1,10},{2,20}];[{0,5},{1,10},{3,30},{4,40}];",
    ),
    (
        "insert {0,5}; insert {4,40}||delete 2; insert {3,30}",
        "select_range 2 2 *",
        "[{2,20}];[{0,5},{1,10},{3,30},{4,40}];",
    ),
    (
        "insert {0,5}; insert {4,40}||delete 2; insert {3,30}",
        "select_range 3 1 *",
        "[];[{0,5},{1,10},{3,30},{4,40}];",
    ),
    (
        "insert {1,11}||insert {1,12}; insert {0,7}",
        "select *",
        "[{1,11},{2,20}];[{0,7},{1,12},{2,20}];",
    ),
    (
        "insert {1,11}||insert {1,12}; insert {0,7}",
        "select_range 1 3 *",
        "[{1,11},{2,20}];[{0,7},{1,12},{2,20}];",
    ),
    (
        "insert {1,11}||insert {1,12}; insert {0,7}",
        "select_range 2 2 *",
        "[{2,20}];[{0,7},{1,12},{2,20}];",
    ),
    (
        "insert {1,11}||insert {1,12}; insert {0,7}",
        "select_range 3 1 *",
        "[];[{0,7},{1,12},{2,20}];",
    ),
];

/// Several calls, one after the other: which turn each takes, and how batches go on.
pub(crate) const SEQUENCES: [Row; 5] = [
    (
        "|| / |busy| / |full|insert {3,31} / delete 2|busy|",
        "insert {1,99}; insert {1,99}; insert_new {4,99}; lookup 1; insert {4,99}; take 4",
        "true;busy;full;[{1,99}];true;[{4,99}];[{1,99},{3,31}];",
    ),
    (
        "delete 1|busy|",
        "insert []; delete 1",
        "error badarg;busy;[{2,20}];",
    ),
    (
        "|| / |busy| / delete 3||",
        "batch * 1; more; more; more",
        "{[{1,10}],more};busy;{[{2,20}],more};'$end_of_table';[{1,10},{2,20}];",
    ),
    (
        "||insert {2,21} / delete 1||insert {3,30}",
        "batch * 1; more; more",
        "{[{1,10}],more};{[{2,21}],more};{[{3,30}],more};[{2,21},{3,30}];",
    ),
    (
        "||insert {2,21} / |full|delete 2",
        "batch * 1; batch * 9; more",
        "{[{1,10}],more};full;'$end_of_table';[{1,10}];",
    ),
];

/// When a call is refused under the script that refuses it, the command, and what it comes to where it isn't: `new` at each
/// refusal, `old` at each but for want of levels, `late` the same with its second turn, and `read` never.
pub(crate) const REFUSED: [Row; 25] = [
    ("new", "insert {1,99}", ""),
    ("new", "insert {4,99}", ""),
    ("new", "insert_new {1,99}", ""),
    ("new", "insert_new {4,99}", ""),
    ("old", "delete 1", "true;[{3,31}];"),
    ("old", "update_counter 1 {2,5}", "15;[{1,15},{3,31}];"),
    ("old", "update_element 1 {2,99}", "true;[{1,99},{3,31}];"),
    ("old", "first", "1;[{1,10},{3,31}];"),
    ("old", "last", "3;[{1,10},{3,31}];"),
    ("old", "next 2", "3;[{1,10},{3,31}];"),
    ("old", "prev 2", "1;[{1,10},{3,31}];"),
    ("old", "select *", "[{1,10},{3,30}];[{1,10},{3,31}];"),
    ("old", "select_range 2 4 *", "[{3,30}];[{1,10},{3,31}];"),
    ("old", "batch * 1", "{[{1,10}],more};[{1,10},{3,31}];"),
    ("late", "take 1", "[{1,10}];[{3,31}];"),
    ("read", "lookup 1", "[{1,10}];[{1,10},{3,31}];"),
    ("read", "lookup 2", "[];[{1,10},{3,31}];"),
    ("read", "lookup 3", "[{3,30}];[{1,10},{3,31}];"),
    ("read", "member 2", "false;[{1,10},{3,31}];"),
    ("read", "member 3", "true;[{1,10},{3,31}];"),
    ("read", "take 2", "[];[{1,10},{3,31}];"),
    ("read", "take 1", "[{1,10}];[{3,31}];"),
    ("read", "update_counter 1 []", "[];[{1,10},{3,31}];"),
    (
        "read",
        "update_counter 2 []",
        "error badarg;[{1,10},{3,31}];",
    ),
    (
        "read",
        "select [{{3,'_'},[],['$_']}]",
        "[{3,30}];[{1,10},{3,31}];",
    ),
];
