/// What may happen next among instances, clients and the store.
#[derive(Clone, Copy, Debug, PartialEq, Eq)]
pub enum Event {
    /// The instance's request is done, and it hears the reply.
    Step { instance: u32 },
    /// The instance's send fails; the request is done or not.
    Lost { instance: u32, done: bool },
    /// A request that the instance sent is done once more, by its place among its sends from 1.
    Again { instance: u32, send: u64 },
    /// The instance is stopped.
    Stop { instance: u32 },
    /// The instance is started.
    Start { instance: u32 },
    /// The client's request is done, and it hears the reply.
    Client { client: u32 },
    /// The client ends; its request is done or not.
    Cut { client: u32, done: bool },
}

/// Whether an event did anything.
#[derive(Clone, Copy, Debug, PartialEq, Eq)]
pub enum Stepped {
    /// It was done.
    Did,
    /// It could not happen, and all is as it was.
    Nothing,
}
