// Where each table begins in a compiled list, and the sizes that this comes from.
//
//     AT        the place of each distinct name in the list      NAMES
//     LEN       its length                                       NAMES
//     HEAD      the first name of each chain                     HEADS
//     NEXT      the name after each name in its chain            NAMES
//     ROWS      the steps of each path that pass a name          ENTRIES    row 0 for a name that no step has, row k + 1 for name k
//     STAYS     the steps of each path that may stay             PATHS      at the place of the step before
//     GOES      those that may go below it                       PATHS
//     FAR       those that may go further than right below       PATHS
//     LASTS     its last step                                    PATHS
//     MARKS     its last step again, if it is marked             PATHS
//     TESTS     the place in the list where its test begins       PATHS      0 for a path without one
//     LENGTH    the end
//
// Names are numbered from 1 in HEAD and NEXT, and 0 is none. Steps are bits: bit j for step j + 1.
use paths::PathList;

// How many paths, names and chains there are at most, and how many entries the rows have: one for each path, in each row.
pub const PATHS: usize = PathList::LINES;

pub const NAMES: usize = lookup::NAMES;

pub const HEADS: usize = lookup::HEADS;

pub const ENTRIES: usize = PATHS * (NAMES + 1);

pub const AT: usize = 0;

pub const LEN: usize = AT + NAMES;

pub const HEAD: usize = LEN + NAMES;

pub const NEXT: usize = HEAD + HEADS;

pub const ROWS: usize = NEXT + NAMES;

pub const STAYS: usize = ROWS + ENTRIES;

pub const GOES: usize = STAYS + PATHS;

pub const FAR: usize = GOES + PATHS;

pub const LASTS: usize = FAR + PATHS;

pub const MARKS: usize = LASTS + PATHS;

pub const TESTS: usize = MARKS + PATHS;

pub const LENGTH: usize = TESTS + PATHS;
