//! The fields of an order.
ghost use Rattle.std.specs.Prelude.{◌≡◌};
ghost use Rattle.live_line.specs.Field.{key};

/// A field of an order. A fault names the field in which it stands.
#[derive(Clone, Copy)]
pub enum Field {
    /// What the line orders.
    Op,
    /// Which kind of objects it is about.
    Of,
    /// A pod's uid.
    Uid,
    /// A node's name.
    Node,
    /// What names a bind.
    Ticket,
    /// What became of a bind.
    Is,
    /// What a read gave.
    Gave,
    /// The moment.
    At,
    /// An object, or an event of the watch.
    Event,
    /// The labels that are told beside those of an object.
    Labels,
}

impl Field {
    /// The key under which a line has the field, and the name by which a fault tells it.
    pub fn key(self) -> &'static str
        ensures { result.now ≡ key self }
    {
        match self {
            Field::Op => "op",
            Field::Of => "of",
            Field::Uid => "uid",
            Field::Node => "node",
            Field::Ticket => "ticket",
            Field::Is => "is",
            Field::Gave => "gave",
            Field::At => "at",
            Field::Event => "event",
            Field::Labels => "labels",
        }
    }
}
