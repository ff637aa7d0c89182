/// A moment of a run at which a gate is passed.
#[derive(Clone, Copy, Debug, PartialEq, Eq)]
pub enum Point {
    BeforePublish { height: u64 },
    AfterPublish { height: u64 },
    BeforeQuery { client: u32 },
    AfterQuery { client: u32 },
}

/// What is called at each point of a run. A test may hold a thread there.
pub trait Gate: Sync {
    fn pass(&self, point: Point);
}

/// A gate that is passed at once.
#[derive(Clone, Copy, Debug, PartialEq, Eq)]
pub struct OpenGate;

impl Gate for OpenGate {
    fn pass(&self, _point: Point) {}
}
