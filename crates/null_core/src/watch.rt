//! What is told how far a null test has come.

/// What is told how far a null test has come. Nothing depends on what it does.
pub trait Watch {
    /// A master, or a channel of it, is compared up to `done` of `all` places.
    fn tell(&self, done: usize, all: usize);
}

/// Tells of the places of one channel as of those of all channels one after the other.
#[derive(Drop)]
pub(crate) struct ChannelWatch<'a, W> {
    /// What is told of all channels.
    pub watch: &'a W,
    /// The number of the channel.
    pub channel: usize,
    /// How many channels there are.
    pub channels: usize,
}

impl<W: Watch> Watch for ChannelWatch<'_, W> {
    fn tell(&self, done: usize, all: usize) {
        let before = self.channel.saturating_mul(all);
        let every = self.channels.saturating_mul(all);
        self.watch.tell(before.saturating_add(done), every);
    }
}

/// What tells nobody.
#[derive(Clone, Copy)]
pub struct Unwatched;

impl Watch for Unwatched {
    fn tell(&self, done: usize, all: usize) {
        let _ = (done, all);
    }
}
