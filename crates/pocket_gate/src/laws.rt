// What follows from the definitions. Each law is a function without a body of its own.
ghost use Rattle.std.specs.Prelude.{◌≡◌, ℕ, List, Ok, MatchOption, if◌then◌else◌};
ghost use Rattle.pocket_types.specs.Within.{collections_of};
ghost use Rattle.pocket_types.specs.declared.expr.Expr.{Expr};
ghost use Rattle.pocket_types.specs.declared.names.Name.{Name};
ghost use Rattle.pocket_types.specs.declared.records.Collection.{Collection};
ghost use Rattle.pocket_types.specs.declared.records.Rec.{Rec};
ghost use Rattle.pocket_types.specs.declared.records.Rule.TheVariants as rule;
ghost use Rattle.pocket_types.specs.declared.requests.Action.{Action};
ghost use Rattle.pocket_types.specs.declared.requests.Ask.{Ask};
ghost use Rattle.pocket_types.specs.declared.requests.Caller.TheVariants as caller;
ghost use Rattle.pocket_types.specs.declared.resolved.Resolved.{Resolved};
ghost use Rattle.pocket_types.specs.declared.world.World.{World};
ghost use Rattle.pocket_filter.specs.Parsed.{parsed};
ghost use Rattle.pocket_resolve.specs.Filters.{resolution};
ghost use Rattle.pocket_resolve.specs.declared.purpose.Purpose.TheVariants.{RuleOf};
ghost use Rattle.pocket_meaning.specs.Meaning.{holds};
ghost use Rattle.pocket_tables.specs.Worlds.{IsTabled};
ghost use Rattle.pocket_plan.specs.Cutting.{guarded_world};
ghost use Rattle.pocket_plan.specs.Truth.{plan_truth};
ghost use Rattle.pocket_gate.specs.Built.{guard_for};
ghost use Rattle.pocket_gate.specs.Rules.{rule_verdict, verdict};
ghost use Rattle.pocket_gate.specs.Seen.{seen_home, seen_world};
ghost use Rattle.pocket_gate.specs.declared.verdict.Verdict.TheVariants as verdict_is;

use pocket_tables::laws::shelves_are_found;

/// The administrator is admitted everywhere, and sees the world whole.
pub fn the_administrator_sees_all()
    ensures verdict { (w : World) (ask : Ask) (act : Action) (c : Collection) (r : Rec) → ask.caller ≡ caller.Admin
        → verdict w ask act c r ≡ verdict_is.Allowed }
    ensures seen { (w : World) (ask : Ask) → ask.caller ≡ caller.Admin → seen_world w ask ≡ w }
{}

/// A locked rule keeps out with every record, a free one lets through with every record, and one that is a filter lets through exactly
/// where it holds.
pub fn rules_are_judged_as_written()
    ensures locked { (w : World) (ask : Ask) (act : Action) (name : Name) (r : Rec)
        → rule_verdict w ask act name r rule.Locked ≡ verdict_is.Locked name act }
    ensures free { (w : World) (ask : Ask) (act : Action) (name : Name) (r : Rec) → rule_verdict w ask act name r rule.Free ≡ verdict_is.Allowed }
    ensures filter { (w : World) (ask : Ask) (act : Action) (name : Name) (r : Rec) (text : List ℕ) (tree : Expr) (f : Resolved)
        → parsed text ≡ Ok tree → resolution (collections_of w) (RuleOf name) tree ≡ Ok f
        → rule_verdict w ask act name r (rule.Filter text)
        ≡ (if holds w ask name r f then verdict_is.Allowed else verdict_is.RuleFalse name act) }
{}

/// What the guard of the world's collections leaves of the world is what the caller sees, for every request; where there is no guard
/// the caller sees it whole.
pub fn guards_show_what_is_seen()
    ensures { (w : World) (ask : Ask) → IsTabled w
        → MatchOption (guard_for (collections_of w) ask.caller) (seen_world w ask ≡ w) (λ g. guarded_world w g ask ≡ seen_world w ask) }
{
    shelves_are_found();
}

/// A plan under the guard for the caller answers its filter's meaning in the world that the caller sees, of the record as the caller sees
/// it, whether or not the caller may view that record.
pub fn plans_answer_what_is_seen()
    ensures { (w : World) (ask : Ask) (home : Name) (r : Rec) (f : Resolved) → IsTabled w
        → plan_truth w (guard_for (collections_of w) ask.caller) ask home r f ≡ holds (seen_world w ask) ask home (seen_home w ask home r) f }
{
    guards_show_what_is_seen();
}
