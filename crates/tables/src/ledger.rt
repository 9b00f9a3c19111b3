// What the ledger has of one starter: whether it was accepted, and how many of its messages were sent, handled
// and put out. A count that has come to 4,294,967,295 stays there.
ghost use Rattle.std.specs.Prelude.{◌≡◌};
ghost use Rattle.tables.specs.Ledgers.{accepts, handles, puts_out};

// The counts of a node that was not accepted are zeros, which the sums read like any others; an `Option` of counts
// would be opened at every one of them.
#[derive(Clone, Copy, Default)]
pub struct Account {
    pub accepted: bool,
    pub sent: u32,
    pub handled: u32,
    pub put_out: u32,
}

impl Account {
    // The starter is accepted, and sends.
    pub(crate) fn accept(&mut self, sent: u32)
        ensures after { self.new ≡ accepts self.old sent }
    {
        self.accepted = true;
        self.sent = self.sent.saturating_add(sent);
    }

    // One message was handled, and others were sent.
    pub(crate) fn handle(&mut self, sent: u32)
        ensures after { self.new ≡ handles self.old sent }
    {
        self.handled = self.handled.saturating_add(1);
        self.sent = self.sent.saturating_add(sent);
    }

    // One message was put out.
    pub(crate) fn put_out(&mut self)
        ensures after { self.new ≡ puts_out self.old }
    {
        self.put_out = self.put_out.saturating_add(1);
    }
}
