// The laws of a map: what can be read of it, and what a run of its calls amounts to.

#![tactic(auto)]

ghost use Rattle.id_ord_law.specs.Law.{RunLaw};
ghost use Rattle.id_ord_law.specs.Reading.{ReadLaw};

use id_ord_item::IdOrdItem;

/// What is read of a sound map, for every kind of item.
pub fn reads_hold<T: IdOrdItem>()
    ensures { ReadLaw T.IdOrdItem.order }
{}

/// The law over runs of calls, for every kind of item.
pub fn runs_hold<T: IdOrdItem>()
    ensures { RunLaw T.IdOrdItem.order T.IdOrdItem.equal }
{}
