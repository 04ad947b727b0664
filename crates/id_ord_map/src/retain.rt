// Keeping the items that a rule keeps.
ghost use Rattle.std.specs.Prelude.{◌≡◌, ◌<◌, Some};
ghost use Rattle.std.specs.List.{slice_get};
ghost use Rattle.id_ord_law.specs.Law.{Onward};
ghost use Rattle.id_ord_law.specs.Parts.{Sound, walk};
ghost use Rattle.id_ord_law.specs.Standing.{Call.retain as Retain, told};
ghost use Rattle.id_ord_law.specs.Step.{Meets};
ghost use Rattle.id_ord_map.specs.Retain.{retain_answer, Turned, rule_after};
ghost use Rattle.id_ord_map.specs.View.{view, SameMemory};

use crate::looking::same_key;
use crate::map::IdOrdMap;
use id_ord_errors::KeyChanged;
use id_ord_item::{IdOrdItem, KeepRule, Verdict};

impl<'a, T: IdOrdItem> IdOrdMap<'a, T> {
    /// Shows the item at a place to a rule, and does as the rule says of it. The answer is the verdict.
    fn retain_item<R: KeepRule<T>>(
        &mut self,
        place: usize,
        item: T,
        rule: &mut R,
    ) -> Result<Verdict, KeyChanged<T>>
        requires sound { Sound T.IdOrdItem.order (view self.old) }
        requires place { place < self.old.items.len }
        requires item { slice_get (walk (view self.old)) place ≡ Some item }
        ensures turn { Turned T.IdOrdItem.order item (R.KeepRule.changed rule.old item) (R.KeepRule.verdict rule.old item) place (view self.old) result (view self.new) }
        ensures rule { rule.new ≡ R.KeepRule.next rule.old item }
        ensures memory { SameMemory self.old self.new }
        ensures sound { Sound T.IdOrdItem.order (view self.new) }
    {
        let (verdict, changed) = rule.keep(item);
        // A changed key stops it whatever the verdict, so the key is tested before the verdict is used.
        if !same_key(&item, &changed) {
            return Err(KeyChanged { item: changed });
        }
        match verdict {
            Verdict::Keep => self.replace_at(place, changed),
            Verdict::Remove => {
                let _ = self.take_out(place);
            }
        }
        Ok(verdict)
    }

    /// Shows each item to a rule, in key order: one that the rule keeps stands as the rule changed it, another goes.
    ///
    /// A changed key stops it, whatever the verdict: the items before are done, this one stays as it was, and those
    /// after it are not shown to the rule. The item as changed comes back.
    pub fn retain<R: KeepRule<T>>(&mut self, rule: &mut R) -> Result<(), KeyChanged<T>>
        requires sound { Sound T.IdOrdItem.order (view self.old) }
        ensures does { Meets T.IdOrdItem.order (Retain (told R.KeepRule.verdict R.KeepRule.changed R.KeepRule.next rule.old)) (view self.old) (retain_answer result) (view self.new) }
        ensures stands { Onward T.IdOrdItem.order (Retain (told R.KeepRule.verdict R.KeepRule.changed R.KeepRule.next rule.old)) (view self.old) (view self.new) }
        ensures rule { rule.new ≡ rule_after T.IdOrdItem.order R.KeepRule.verdict R.KeepRule.changed R.KeepRule.next rule.old (walk (view self.old)) }
        ensures memory { SameMemory self.old self.new }
        ensures sound { Sound T.IdOrdItem.order (view self.new) }
    {
        // A place is looked at again where its item went, since the next one stands there then.
        let mut at = 0;
        while at < self.items.len as usize {
            let item = self.item_at(at);
            match self.retain_item(at, item, rule)? {
                Verdict::Keep => at += 1,
                Verdict::Remove => {}
            }
        }
        Ok(())
    }
}
