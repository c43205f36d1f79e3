ghost use Rattle.std.specs.Prelude.{◌≡◌, ◌↔◌, ◌≤◌, List, option_map, IfOk, IfSome, IsNone, IsSome};
ghost use Rattle.std.specs.Option.{option_copied};
ghost use Rattle.pocket_types.specs.Callers.{is_admin};
ghost use Rattle.pocket_types.specs.Within.{collections_of};
ghost use Rattle.pocket_types.specs.declared.records.Collection.{Collection};
ghost use Rattle.pocket_types.specs.declared.requests.Caller.TheVariants as caller;
ghost use Rattle.pocket_types.specs.declared.world.World.{World};
ghost use Rattle.pocket_resolve.specs.Fields.{collection_named};
ghost use Rattle.pocket_tables.specs.Worlds.{IsTabled};
ghost use Rattle.pocket_plan.specs.Cutting.{guarded_world, view_named};
ghost use Rattle.pocket_gate.specs.Built.{test_verdict};
ghost use Rattle.pocket_gate.specs.Rules.{keeps_out, verdict};
ghost use Rattle.pocket_gate.specs.Seen.{seen_world};
ghost use Rattle.pocket_gate.specs.declared.verdict.Verdict.TheVariants.{Allowed};

use crate::building::views_of;
use crate::laws::guards_show_what_is_seen;
use crate::verdict::Verdict;
use pocket_plan::{Guard, View, ViewTest};
use pocket_tables::Tables;
use pocket_types::{Action, Ask, Caller, Collection, Name, Rec, Rule, Seq, Steps};
use std::alloc::{AllocError, Global};
use std::sync::ledger::Ledger;

/// The rules of collections, each compiled: for each action all collections with whom their rules let through. The guard has the view
/// rules.
#[derive(Drop)]
pub struct Rules {
    list: Seq<View>,
    guard: Guard,
    create: Seq<View>,
    update: Seq<View>,
    delete: Seq<View>,
}

/// Whether a rule keeps a caller out, whatever the record: it is locked, and the caller isn't the administrator.
pub fn is_locked_for(caller: &Caller, rule: &Rule) -> bool
    ensures { result ≡ keeps_out caller.now rule.now }
{
    !caller.is_admin() && matches!(rule, Rule::Locked)
}

/// Whom the rule of a collection lets through.
fn test_named<'a>(views: &'a [View], name: &Name) -> Option<&'a ViewTest>
    ensures { option_copied result ≡ option_map (λ v. v.test) (view_named name.now views.now) }
{
    let view = views.iter().find(|view| view.collection == *name)?;
    Some(&view.test)
}

/// What a rule of a collection says of a record.
fn verdict_of<L: Ledger>(
    alloc: Global,
    test: &ViewTest,
    tables: &Tables,
    ask: &Ask,
    action: Action,
    collection: &Name,
    rec: &Rec,
    steps: &mut Steps<L>,
) -> Result<Verdict, AllocError>
    ensures verdict { IfOk result (λ v. v ≡ test_verdict tables.now.world ask.now action collection.now rec.now test.now) }
    ensures steps { steps.old ≤ steps.new }
{
    match test {
        ViewTest::All => Ok(Verdict::Allowed),
        ViewTest::Nobody => Ok(Verdict::Locked(collection.clone()?, action)),
        ViewTest::ByPlan(plan) => {
            if plan.test(alloc, tables, None, ask, collection, rec, steps)? {
                Ok(Verdict::Allowed)
            } else {
                Ok(Verdict::RuleFalse(collection.clone()?, action))
            }
        }
    }
}

impl Rules {
    ghost use Rattle.pocket_gate.specs.Built.{guard_for, rules_of, views_in};

    /// The rules of collections. Each text is parsed, resolved and compiled here, once.
    ///
    /// A rule that is no filter, or doesn't resolve among the collections, is as locked: but such rules aren't saved.
    #[tactic(auto, unfolding(crate::specs::Built::rules_of, crate::specs::Built::guard_of))]
    pub fn build(alloc: Global, collections: &[Collection]) -> Result<Rules, AllocError>
        ensures { IfOk result (λ rules. rules ≡ rules_of collections.now) }
    {
        let list = views_of(alloc, collections, Action::List)?;
        let views = views_of(alloc, collections, Action::View)?;
        let create = views_of(alloc, collections, Action::Create)?;
        let update = views_of(alloc, collections, Action::Update)?;
        let delete = views_of(alloc, collections, Action::Delete)?;
        Ok(Rules {
            list,
            guard: Guard { views },
            create,
            update,
            delete,
        })
    }

    /// All collections with their rules for an action.
    fn views(&self, action: Action) -> &[View]
        ensures { result.now ≡ views_in self.now action }
    {
        match action {
            Action::List => self.list.as_slice(),
            Action::View => self.guard.views.as_slice(),
            Action::Create => self.create.as_slice(),
            Action::Update => self.update.as_slice(),
            Action::Delete => self.delete.as_slice(),
        }
    }

    /// What the rule for an action says of a record of a collection, for a request in the tables' world. The record need not stand there.
    pub fn may<L: Ledger>(
        &self,
        alloc: Global,
        tables: &Tables,
        ask: &Ask,
        action: Action,
        collection: &Name,
        rec: &Rec,
        steps: &mut Steps<L>,
    ) -> Result<Verdict, AllocError>
        requires rules { self.now ≡ rules_of (collections_of tables.now.world) }
        requires there { IsSome (collection_named (collections_of tables.now.world) collection.now) }
        ensures verdict { IfSome (collection_named (collections_of tables.now.world) collection.now)
            (λ c. IfOk result (λ v. v ≡ verdict tables.now.world ask.now action c rec.now)) }

        // For the administrator no memory is wanted.
        ensures admin { ask.now.caller ≡ caller.Admin → result ≡ Ok Allowed }
        ensures steps { steps.old ≤ steps.new }
    {
        if ask.caller.is_admin() {
            return Ok(Verdict::Allowed);
        }
        match test_named(self.views(action), collection) {
            Some(test) => verdict_of(alloc, test, tables, ask, action, collection, rec, steps),
            None => unreachable!(),
        }
    }

    /// The guard that shows what the view rules admit. None exactly for the administrator, who sees all. It takes no memory.
    pub fn guard(&self, ask: &Ask) -> Option<&Guard>
        ensures none { IsNone result ↔ (ask.now.caller ≡ caller.Admin) }
        ensures guard { (cs : List Collection) → self.now ≡ rules_of cs → option_copied result ≡ guard_for cs ask.now.caller }

        // What it leaves of the world is what the caller sees.
        ensures seen { (w : World) → IsTabled w → self.now ≡ rules_of (collections_of w)
            → IfSome result (λ g. guarded_world w g.now ask.now ≡ seen_world w ask.now) }
    {
        guards_show_what_is_seen();
        let whole = ask.caller.is_admin();
        if whole { None } else { Some(&self.guard) }
    }
}
