// The rules of a collection, read from the members of its row.
ghost use Rattle.std.specs.Prelude.{◌≡◌, ◌≢◌, Some, IfOk, MatchOption};
ghost use Rattle.pocket_types.specs.declared.records.Rule.{Rule};
ghost use Rattle.pocket_ops.specs.Trees.{rule_jv, text_jv};
ghost use Rattle.pocket_rows.specs.Cells.{AreShallow, value_under};
ghost use Rattle.pocket_rows.specs.CollectionRows.{AreRulesUnder, HasNoRules, HasRules};
ghost use Rattle.pocket_types.specs.Sound.{IsWritten};

use crate::members::cell_tree_under;
use pocket_types::{Jv, Member, Rule, Text};
use std::alloc::{AllocError, Global};

/// The five rules of a collection.
#[derive(Drop)]
pub struct Rules {
    pub list: Rule,
    pub view: Rule,
    pub create: Rule,
    pub update: Rule,
    pub delete: Rule,
}

/// The rule that is printed as a text: free where it is empty.
fn written_rule(alloc: Global, text: &str) -> Result<Rule, AllocError>
    ensures { IfOk result (λ rule. IsWritten rule × (text_jv text.now ≡ rule_jv rule)) }
{
    if text.is_empty() {
        return Ok(Rule::Free);
    }
    Ok(Rule::Filter(Text::from_str(alloc, text)?))
}

/// The rule of a tree. None only where no rule has it.
fn rule_of(alloc: Global, tree: &Jv) -> Result<Option<Rule>, AllocError>
    ensures { IfOk result (λ found. MatchOption found
        ((rule : Rule) → tree.now ≢ rule_jv rule)
        (λ rule. IsWritten rule × (tree.now ≡ rule_jv rule))) }
{
    match tree {
        Jv::Null => Ok(Some(Rule::Locked)),
        Jv::Text(text) => Ok(Some(written_rule(alloc, text.as_str())?)),
        Jv::Flag(_) => Ok(None),
        Jv::Num(_) => Ok(None),
        Jv::List(_) => Ok(None),
        Jv::Map(_) => Ok(None),
    }
}

/// The rule under a key. None only where no rule stands there.
fn rule_under(alloc: Global, members: &[Member], key: &str) -> Result<Option<Rule>, AllocError>
    requires { AreShallow members.now }
    ensures { IfOk result (λ found. MatchOption found
        ((rule : Rule) → value_under key.now members.now ≢ Some (rule_jv rule))
        (λ rule. IsWritten rule × (value_under key.now members.now ≡ Some (rule_jv rule)))) }
{
    match cell_tree_under(members, key) {
        Some(tree) => rule_of(alloc, tree),
        None => Ok(None),
    }
}

/// The rules under their names. None only where one of them is missing.
pub fn rules_under(alloc: Global, members: &[Member]) -> Result<Option<Rules>, AllocError>
    requires { AreShallow members.now }
    ensures { IfOk result (λ found. MatchOption found (HasNoRules members.now) (λ rules. HasRules members.now rules)) }
{
    let Some(list) = rule_under(alloc, members, "listRule")? else {
        return Ok(None);
    };
    let Some(view) = rule_under(alloc, members, "viewRule")? else {
        return Ok(None);
    };
    let Some(create) = rule_under(alloc, members, "createRule")? else {
        return Ok(None);
    };
    let Some(update) = rule_under(alloc, members, "updateRule")? else {
        return Ok(None);
    };
    let Some(delete) = rule_under(alloc, members, "deleteRule")? else {
        return Ok(None);
    };
    Ok(Some(Rules {
        list,
        view,
        create,
        update,
        delete,
    }))
}
