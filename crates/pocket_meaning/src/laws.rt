// What follows from the definitions, for those who compute truth in other ways. Each law is a function without a body.
ghost use Rattle.pocket_meaning.specs.Laws.{ConditionsShare, EmptyListIsNobody, HasOneChoice, ListIsRelation, PlainIsEach, AnyOrderServes, SharedStartServes, StartsAreMade, OrdersAreMade, SameSightSameTruth, TruthIsCarried, ChosenPartIsSettled};
ghost use Rattle.pocket_meaning.specs.Standing.{PathsLeadToRecords};

/// Any-match comparisons of one filter share the choice on each path: two of them hold together exactly where one choice makes
/// both true.
pub fn conditions_share_a_choice()
    ensures { ConditionsShare }
{}

/// A prefix with an empty related list has chosen nobody, and one that has chosen nobody in a world has an empty list.
pub fn an_empty_list_is_nobody()
    ensures { EmptyListIsNobody }
{}

/// What a path has chosen in a world is nobody, or stands where the path leads: the record that is judged, or one of the world. So a
/// path whose steps lead from collection to collection never comes to a member of another sort.
pub fn paths_lead_to_records()
    ensures { PathsLeadToRecords }
{}

/// A filter without any-match prefixes has exactly one choice.
pub fn a_plain_filter_has_one_choice()
    ensures { HasOneChoice }
{}

/// The list of choices and the relation agree, in every sight: a filter is true exactly where some choice of all prefixes makes it
/// true.
pub fn list_and_relation_agree()
    ensures { ListIsRelation }
{}

/// A plain comparison is true exactly where every choice of all prefixes makes it true.
pub fn a_plain_comparison_asks_every_choice()
    ensures { PlainIsEach }
{}

/// Prefixes may be taken in any order that has parents first, from any start that some choice of all prefixes agrees with: some
/// choice that goes on makes a filter true exactly where one of all prefixes does that agrees with the start. A plain comparison is
/// true in each choice that goes on exactly where it is in each of those.
pub fn any_order_serves()
    ensures { AnyOrderServes }
{}

/// From a start that every choice agrees with, such as the record itself and the sent fields, any order gives the truth itself.
pub fn a_shared_start_gives_the_truth()
    ensures { SharedStartServes }
{}

/// Nothing is a start, and so is a start with one more member of the next list, and what every choice agrees with. A root with one
/// member is shared by all choices.
pub fn starts_are_made()
    ensures { StartsAreMade }
{}

/// Prefixes with all that they begin with have parents first, and so has a start followed by what it lacks of them.
pub fn orders_are_made()
    ensures { OrdersAreMade }
{}

/// A filter sees of a world only the request, the sent fields, the lists and the values: where these are the same, so is its truth.
pub fn same_sight_same_truth()
    ensures { SameSightSameTruth }
{}

/// A filter is as true in a sight whose lists and values are those of another with each member carried over.
///
/// A member goes over whole, a record with its collection, and the record that is judged goes over like every other: it is Home's
/// list. So a world that is cut is asked of the cut record alone. A whole record beside a cut collection, whose cells would be
/// taken for those of other fields, is no member that the map gives, and the lists or the values then differ.
pub fn truth_is_carried_over()
    ensures { TruthIsCarried }
{}

/// A part of a filter whose prefixes are all chosen keeps its truth in every choice that goes on. So a search may end early where
/// such a part is false and the whole can't be true without it.
pub fn a_chosen_part_is_settled()
    ensures { ChosenPartIsSettled }
{}
