/// What has a name of its own in a program.
#[derive(Clone, Copy, Debug, PartialEq, Eq)]
pub(crate) enum Kind {
    Function,
    Global,
    Mutex,
}
