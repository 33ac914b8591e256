// An order: what it ranks, and what of it stands above what.
ghost use Rattle.std.specs.Prelude.{Decides};
ghost use Rattle.orders.specs.Laws.{OrderLaws};

pub trait Order {
    // What the order ranks.
    type Ranked;

    // Which two things stand in the order, the first above the second.
    ghost above: { Self → Self.Ranked → Self.Ranked → Type 0 };

    // Whether `a` stands above `b`.
    fn stands_above(&self, a: &Self::Ranked, b: &Self::Ranked) -> bool
        ensures { Decides result (above self.now a.now b.now) };

    // It is an order: nothing stands above itself, of two different things exactly one stands above the other, and
    // above carries on.
    ghost laws: { (o : Self) → OrderLaws (above o) };
}
