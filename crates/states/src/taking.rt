/// Which inputs of a node a firing takes a token from. Inputs are counted from 0 here.
#[derive(Clone, Copy, Debug, PartialEq, Eq)]
pub(crate) enum Taking {
    Nothing,
    Each,
    One(usize),
    Both(usize, usize),
}
