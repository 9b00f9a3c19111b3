// What the caller of a run keeps: the own and the running holding of each node, and the messages in transit. Calls are
// handed the three in one struct, or as they are lent.
use crate::message::Message;
use base::bag::Bag;

// A call on stores changes what the running holdings are and not whose they are, and leaves the own ones. These are its
// clauses `lender` and `own`: they speak of the call and not of the stores, so no type can have them.
#[derive(Drop)]
pub struct Stores<'a, 'b, T> {
    pub own: &'a [T],
    pub running: &'a mut [T],
    pub transit: Bag<'b, Message<T>>,
}

// The same three, each lent, as the calls hand them on to their workers. The bag is lent too: of running holdings that
// are lent, and put into a struct that holds a bag, the check knows no more after a call than how many there are.
#[derive(Drop)]
pub(crate) struct LentStores<'a, 'b, 'c, T> {
    pub(crate) own: &'a [T],
    pub(crate) running: &'a mut [T],
    pub(crate) transit: &'b mut Bag<'c, Message<T>>,
}
