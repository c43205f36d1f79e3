ghost use Rattle.std.specs.Prelude.{◌≡◌, IfOk, map, ◌++◌, [], ◌∷◌};
ghost use Rattle.pocket_meaning.specs.Choices.{chosen, related, or_nobody};
ghost use Rattle.pocket_meaning.specs.Seen.{seen, choice_of};

use crate::members::{Chosen, Member};
use crate::sees::Sees;
use pocket_types::{Prefix, Root, Step};
use std::alloc::{AllocError, Global};

/// What a prefix has chosen: nobody where the choice lacks it.
pub fn member_chosen<'w>(choice: &[Chosen<'_, 'w>], root: &Root, steps: &[Step]) -> Member<'w>
    ensures { seen result ≡ chosen (choice_of choice.now) (record { root = root.now; steps = steps.now }) }
{
    match choice {
        [] => Member::Nobody,
        [first, rest @ ..] => {
            if first.prefix.is_of(root, steps) {
                first.member
            } else {
                member_chosen(rest, root, steps)
            }
        }
    }
}

/// The list that a prefix chooses from.
fn members_related<'w, S: Sees>(
    alloc: Global,
    scene: &'w S,
    choice: &[Chosen<'_, 'w>],
    prefix: &Prefix,
) -> Result<Vec<Member<'w>>, AllocError>
    ensures { IfOk result (λ v. map seen v.items ≡ related (S.all_seen scene.now) (choice_of choice.now) prefix.now) }
{
    match prefix.steps.as_slice() {
        [] => scene.root_members(alloc, &prefix.root),
        [before @ .., last] => {
            let parent = member_chosen(choice, &prefix.root, before);
            scene.step_members(alloc, last, parent)
        }
    }
}

/// What a prefix may choose: a member of its list, or nobody where that is empty.
pub fn members_to_choose<'w, S: Sees>(
    alloc: Global,
    scene: &'w S,
    choice: &[Chosen<'_, 'w>],
    prefix: &Prefix,
) -> Result<Vec<Member<'w>>, AllocError>
    ensures { IfOk result (λ v. map seen v.items ≡ or_nobody (related (S.all_seen scene.now) (choice_of choice.now) prefix.now)) }
{
    let mut members = members_related(alloc, scene, choice, prefix)?;
    if members.is_empty() {
        members.push(Member::Nobody)?;
    }
    Ok(members)
}

/// A choice with one more prefix.
pub fn longer<'p, 'w>(
    alloc: Global,
    choice: &[Chosen<'p, 'w>],
    prefix: &'p Prefix,
    member: Member<'w>,
) -> Result<Vec<Chosen<'p, 'w>>, AllocError>
    ensures { IfOk result (λ v. choice_of v.items ≡ choice_of choice.now ++ (prefix.entry.now, seen member.entry) ∷ []) }
{
    let mut choice = choice.to_vec(alloc)?;
    choice.push(Chosen { prefix, member })?;
    Ok(choice)
}
