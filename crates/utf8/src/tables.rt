// RFC 3629, section 4, as two tables: the class of each octet, and the moves from state to state by class. They are the lists of specs/Tables.antt; that those are
// the grammar's is shown in proofs/Classes.antt and Moves.antt. A function that names a table builds it at each call: it is named once, and lent.

use crate::BROKEN;

// Numbers to a line.
pub const LINE: usize = 16;

pub type Classes = [[u8; LINE]; LINE];

pub type Moves = [[u8; LINE]; BROKEN + 1];

// The class of each octet: the line by its first four bits, the column by its last four. UTF8-tail has three classes, since right after E0, ED, F0 and F4 only a part
// of it may stand; and these four have a class each.
//
//     0  UTF8-1         00 to 7F
//     1  UTF8-tail      80 to 8F
//     2                 90 to 9F
//     3                 A0 to BF
//     4  never appears  C0 and C1, F5 to FF
//     5  begins UTF8-2  C2 to DF
//     6  begins UTF8-3  E0
//     7                 E1 to EC, EE and EF
//     8                 ED
//     9  begins UTF8-4  F0
//    10                 F1 to F3
//    11                 F4
pub const CLASSES: Classes = [
    [0, 0, 0, 0, 0, 0, 0, 0, 0, 0, 0, 0, 0, 0, 0, 0], // 00 to 0F: UTF8-1
    [0, 0, 0, 0, 0, 0, 0, 0, 0, 0, 0, 0, 0, 0, 0, 0], // 10 to 1F: UTF8-1
    [0, 0, 0, 0, 0, 0, 0, 0, 0, 0, 0, 0, 0, 0, 0, 0], // 20 to 2F: UTF8-1
    [0, 0, 0, 0, 0, 0, 0, 0, 0, 0, 0, 0, 0, 0, 0, 0], // 30 to 3F: UTF8-1
    [0, 0, 0, 0, 0, 0, 0, 0, 0, 0, 0, 0, 0, 0, 0, 0], // 40 to 4F: UTF8-1
    [0, 0, 0, 0, 0, 0, 0, 0, 0, 0, 0, 0, 0, 0, 0, 0], // 50 to 5F: UTF8-1
    [0, 0, 0, 0, 0, 0, 0, 0, 0, 0, 0, 0, 0, 0, 0, 0], // 60 to 6F: UTF8-1
    [0, 0, 0, 0, 0, 0, 0, 0, 0, 0, 0, 0, 0, 0, 0, 0], // 70 to 7F: UTF8-1
    [1, 1, 1, 1, 1, 1, 1, 1, 1, 1, 1, 1, 1, 1, 1, 1], // 80 to 8F: UTF8-tail, but not right after E0 or F0
    [2, 2, 2, 2, 2, 2, 2, 2, 2, 2, 2, 2, 2, 2, 2, 2], // 90 to 9F: UTF8-tail, but not right after E0 or F4
    [3, 3, 3, 3, 3, 3, 3, 3, 3, 3, 3, 3, 3, 3, 3, 3], // A0 to AF: UTF8-tail, but not right after ED or F4
    [3, 3, 3, 3, 3, 3, 3, 3, 3, 3, 3, 3, 3, 3, 3, 3], // B0 to BF: the same
    [4, 4, 5, 5, 5, 5, 5, 5, 5, 5, 5, 5, 5, 5, 5, 5], // C0 to CF: C0 and C1 never appear; C2 on begin UTF8-2
    [5, 5, 5, 5, 5, 5, 5, 5, 5, 5, 5, 5, 5, 5, 5, 5], // D0 to DF: begin UTF8-2
    [6, 7, 7, 7, 7, 7, 7, 7, 7, 7, 7, 7, 7, 8, 7, 7], // E0 to EF: begin UTF8-3, E0 and ED each in its own way
    [9, 10, 10, 10, 11, 4, 4, 4, 4, 4, 4, 4, 4, 4, 4, 4], // F0 to FF: F0 to F4 begin UTF8-4, F0 and F4 each in its own way; F5 to FF never appear
];

// The state after an octet: a line for each state, a column for each class, under the lowest octet of the class. The last four columns are no class; they make a line
// sixteen numbers, which is found by a shift.
pub const MOVES: Moves = [
    //00 80 90 A0 C0 C2 E0 E1 ED F0 F1 F4
    [0, 8, 8, 8, 8, 1, 4, 2, 5, 6, 3, 7, 8, 8, 8, 8], // 0: between characters
    [8, 0, 0, 0, 8, 8, 8, 8, 8, 8, 8, 8, 8, 8, 8, 8], // 1: one UTF8-tail to come
    [8, 1, 1, 1, 8, 8, 8, 8, 8, 8, 8, 8, 8, 8, 8, 8], // 2: two, as after E1
    [8, 2, 2, 2, 8, 8, 8, 8, 8, 8, 8, 8, 8, 8, 8, 8], // 3: three, as after F1
    [8, 8, 8, 1, 8, 8, 8, 8, 8, 8, 8, 8, 8, 8, 8, 8], // 4: after E0: A0 to BF, then one
    [8, 1, 1, 8, 8, 8, 8, 8, 8, 8, 8, 8, 8, 8, 8, 8], // 5: after ED: 80 to 9F, then one
    [8, 8, 2, 2, 8, 8, 8, 8, 8, 8, 8, 8, 8, 8, 8, 8], // 6: after F0: 90 to BF, then two
    [8, 2, 8, 8, 8, 8, 8, 8, 8, 8, 8, 8, 8, 8, 8, 8], // 7: after F4: 80 to 8F, then two
    [8, 8, 8, 8, 8, 8, 8, 8, 8, 8, 8, 8, 8, 8, 8, 8], // 8: broken
];
