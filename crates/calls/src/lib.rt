// What the calls of a database ask of its device and answer: the definitions, and the types of their arguments and answers.
#![tactic(auto)]

use pages::Place;

// A page, and a pair's number there.
pub type Position = (u32, u32);

// What a store does where the key is there.
#[derive(Clone, Copy, PartialEq, Eq, Debug)]
pub enum Mode {
    // refuses
    Insert,
    // replaces its pair
    Replace,
}

// What a step of a walk answers: a pair, by the places of its key and its value in the page that was read, with the
// position to go on from; or the end.
#[derive(Clone, Copy, PartialEq, Eq, Debug)]
pub enum Stepped {
    Pair((Place, Place, Position)),
    End,
}
