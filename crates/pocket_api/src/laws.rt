// Laws of the definitions. Each is a function without a body.
ghost use Rattle.pocket_types.specs.declared.names.Name.{Name};
ghost use Rattle.pocket_types.specs.declared.requests.Action.TheVariants as action;
ghost use Rattle.pocket_api.specs.Laws.{AreToldAlike, IsTextOfKeeperFault, IsTextOfMemory};
ghost use Rattle.pocket_api.specs.declared.why.Why.TheVariants as why;

/// A record that may not be seen, changed or deleted is answered like one that isn't there, in every byte.
pub fn a_false_rule_looks_like_absence()
    ensures view { (c : Name) → AreToldAlike (why.RuleFalse c action.View) why.NoRecord }
    ensures update { (c : Name) → AreToldAlike (why.RuleFalse c action.Update) why.NoRecord }
    ensures delete { (c : Name) → AreToldAlike (why.RuleFalse c action.Delete) why.NoRecord }
{}

/// The fixed texts, for want of memory and where the store failed, are those of refusals for these causes.
pub fn fixed_texts_are_refusals()
    ensures memory { IsTextOfMemory }
    ensures store { IsTextOfKeeperFault }
{}
