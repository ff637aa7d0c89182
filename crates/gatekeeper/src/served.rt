/// How a module was served.
#[derive(Clone, Copy, Debug, PartialEq, Eq)]
pub enum Served {
    Pinned,
    Recent,
    File,
    Decoded,
}
