ghost use Rattle.std.specs.Prelude.{◌≡◌, IfOk, map, option_map};
ghost use Rattle.pocket_meaning.specs.Seen.{seen, sight_of};
ghost use Rattle.pocket_meaning.specs.Sights.{Sight};

use crate::members::{Member, Scene};
use crate::related::{members_of_root, members_of_step, sent_field_of};
use crate::values::member_value_of;
use pocket_types::{Ask, Cell, Field, Modifier, Name, Root, Step, Value};
use std::alloc::{AllocError, Global};

/// What a filter may be judged in: it gives the request, the sent fields, and the lists and values that are seen there.
///
/// A `Scene` sees a whole world. What sees less of one gives shorter lists and fewer values, and filters are judged in it by the
/// same functions.
pub trait Sees {
    // what is seen
    ghost all_seen: { Self → Sight };

    /// The request.
    fn ask(&self) -> &Ask
        ensures { result.now ≡ (all_seen self.now).ask };

    /// A field that was sent, with the cell that it will have.
    fn sent_field<'a>(&'a self, name: &Name) -> Option<(&'a Field, &'a Cell)>
        ensures { option_map (λ x. (x.0.now, x.1.now)) result ≡ (all_seen self.now).sent name.now };

    /// The members of a root.
    fn root_members<'a>(&'a self, alloc: Global, root: &Root) -> Result<Vec<Member<'a>>, AllocError>
        ensures { IfOk result (λ v. map seen v.items ≡ (all_seen self.now).roots root.now) };

    /// The members to which a step leads from one.
    fn step_members<'a>(
        &'a self,
        alloc: Global,
        step: &Step,
        from: Member<'a>,
    ) -> Result<Vec<Member<'a>>, AllocError>
        ensures { IfOk result (λ v. map seen v.items ≡ (all_seen self.now).steps step.now (seen from.entry)) };

    /// A field of a member, under a modifier.
    fn field_value(
        &self,
        alloc: Global,
        member: Member<'_>,
        name: &Name,
        modifier: Modifier,
    ) -> Result<Value, AllocError>
        ensures { IfOk result (λ v. v ≡ (all_seen self.now).values (seen member.entry) name.now modifier) };
}

impl Sees for Scene<'_, '_> {
    ghost all_seen = { sight_of };

    fn ask(&self) -> &Ask {
        self.ask
    }

    fn sent_field<'a>(&'a self, name: &Name) -> Option<(&'a Field, &'a Cell)> {
        sent_field_of(self, name)
    }

    fn root_members<'a>(
        &'a self,
        alloc: Global,
        root: &Root,
    ) -> Result<Vec<Member<'a>>, AllocError> {
        members_of_root(alloc, self, root)
    }

    fn step_members<'a>(
        &'a self,
        alloc: Global,
        step: &Step,
        from: Member<'a>,
    ) -> Result<Vec<Member<'a>>, AllocError> {
        members_of_step(alloc, self, step, from)
    }

    fn field_value(
        &self,
        alloc: Global,
        member: Member<'_>,
        name: &Name,
        modifier: Modifier,
    ) -> Result<Value, AllocError> {
        member_value_of(alloc, member, name, modifier)
    }
}
