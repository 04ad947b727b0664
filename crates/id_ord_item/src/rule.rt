// What decides which items stay.
ghost use Rattle.std.specs.Prelude.{◌≡◌};
ghost use Rattle.id_ord_item.specs.declared.rule.Verdict.{Verdict};

use crate::item::IdOrdItem;

/// What a rule says of an item.
#[derive(Clone, Copy, PartialEq, Eq, Debug)]
pub enum Verdict {
    Keep,
    Remove,
}

// A trait and no closure: the law over runs is told a rule by its ghost members, state and all.
/// A rule that is shown items one by one and may change each, with a state that moves on.
///
/// `verdict`, `changed` and `next` say of a state and an item what the rule answers, the item as changed, and its next state.
pub trait KeepRule<T: IdOrdItem> {
    ghost verdict: { Self → T → Verdict };

    ghost changed: { Self → T → T };

    ghost next: { Self → T → Self };

    // The item as changed is owed with either verdict, so it stands beside the verdict.
    /// The verdict on an item and the item as changed; moves to the next state.
    fn keep(&mut self, item: T) -> (Verdict, T)
        ensures verdict { result.0 ≡ verdict self.old item }
        ensures changed { result.1 ≡ changed self.old item }
        ensures next { self.new ≡ next self.old item };
}
