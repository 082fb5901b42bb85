//! Questions by names, and the answers that fit them.
ghost use Rattle.std.specs.Prelude.{◌≡◌, ℕ, map, IfOk};
ghost use Rattle.std.specs.Option.{option_map, option_copied};
ghost use Rattle.base_types.specs.Contents.{facts_of};
ghost use Rattle.base_types.specs.Meanings.{choice_of, fact_of};
ghost use Rattle.chase_question.specs.Inquiries.{NegativeInquiry, PositiveInquiry, inquiry_of};
ghost use Rattle.def_chase.specs.Updates.{Drop, Unify};
ghost use Rattle.def_chase.specs.Values.{Fact, outer, same_fact};
ghost use Rattle.def_workspace.specs.Names.{fact_named};
ghost use Rattle.def_workspace.specs.Runs.{all_called as all_called_by, called as called_by, some_called, source_at};
ghost use Rattle.ws_lines.specs.Meanings.{asked_of, given_of, source_of};
ghost use Rattle.ws_run.specs.Asking.{IsTold, asked_in, choice_in, fitting_in, is_asked as is_asked_in};
ghost use Rattle.ws_run.specs.Meanings.{active_in};

use crate::halts::Question as Told;
use crate::ops::Over;
use crate::settings::Setting;
use base_types::{Choice, Mapping, Memory, Tuple, TupleList, ValueList, WriteList};
use chase_question::Question;
use chase_repair::image;
use chase_update::Attempt;
use set_facts::Overlay;
use std::alloc::Global;
use ws_ground::{Touched, image_for};
use ws_lines::{Asked, Given, Source};
use ws_names::{Names, is_same_question};

/// Names the question: its source, and by names its wanted tuple, or the tuples of which some must go. None if there is no such
/// mapping.
pub(crate) fn asked_by(
    alloc: Global,
    setting: &Setting<'_>,
    names: &Names,
    question: &Question,
) -> Result<Option<Asked>, Memory>
    ensures asked { IfOk result (λ asked. option_map asked_of asked ≡
        asked_in (active_in setting.now) names.now (inquiry_of question.now)) }
{
    match question {
        Question::Positive { mapping, tuple, .. } => {
            let tuples = names.tuples(alloc, std::slice::from_ref(tuple))?;
            Ok(asked_at(setting, *mapping, tuples))
        }
        Question::Negative { mapping, tuples } => {
            let tuples = names.tuples(alloc, tuples.as_slice())?;
            Ok(asked_at(setting, *mapping, tuples))
        }
    }
}

// The question of this mapping about these tuples; None if there is no such mapping.
fn asked_at(setting: &Setting<'_>, mapping: u16, tuples: TupleList) -> Option<Asked>
    ensures asked { option_map asked_of result ≡ option_map
        (λ s. record { source = s; tuples = facts_of tuples })
        (source_at (active_in setting.now) mapping) }
{
    match source_in(setting, mapping) {
        Some(source) => Some(Asked { source, tuples }),
        None => None,
    }
}

// The source of this mapping; None if there is no such mapping.
#[tactic(auto, using(crate::proofs::Sources::source_there, crate::proofs::Sources::source_not))]
fn source_in(setting: &Setting<'_>, mapping: u16) -> Option<Source>
    ensures source { option_map source_of result ≡ source_at (active_in setting.now) mapping }
{
    match setting.in_force.mappings().get(mapping as usize) {
        Some(_) => Some(setting.source(mapping)),
        None => None,
    }
}

/// The choice of an answer in the terms of the question, if the answer was given to this question and fits it.
pub(crate) fn fitting(
    alloc: Global,
    setting: &Setting<'_>,
    names: &Names,
    question: &Question,
    given: Option<&Given>,
) -> Result<Option<Choice>, Memory>
    ensures choice { IfOk result (λ choice. option_map choice_of choice ≡
        fitting_in (active_in setting.now) names.now (inquiry_of question.now)
        (option_map given_of (option_copied given.entry))) }
{
    let Some(given) = given else {
        return Ok(None);
    };
    if !is_asked(alloc, setting, names, question, &given.asked)? {
        return Ok(None);
    }
    let choice = choice_for(alloc, names, question, &given.choice)?;
    Ok(choice)
}

// Whether the question is this one.
fn is_asked(
    alloc: Global,
    setting: &Setting<'_>,
    names: &Names,
    question: &Question,
    other: &Asked,
) -> Result<bool, Memory>
    ensures asked { IfOk result (λ same. same ≡ is_asked_in
        (asked_in (active_in setting.now) names.now (inquiry_of question.now))
        (asked_of other.now)) }
{
    match asked_by(alloc, setting, names, question)? {
        Some(asked) => Ok(is_same_question(&asked, other)),
        None => Ok(false),
    }
}

// The choice in the terms of the question, if it fits.
fn choice_for(
    alloc: Global,
    names: &Names,
    question: &Question,
    choice: &Choice,
) -> Result<Option<Choice>, Memory>
    ensures choice { IfOk result (λ fitting. option_map choice_of fitting ≡
        choice_in names.now (inquiry_of question.now) (choice_of choice.now)) }
{
    match question {
        Question::Positive { candidates, .. } => {
            let choice = positive_choice(alloc, names, candidates, choice)?;
            Ok(choice)
        }
        Question::Negative { tuples, .. } => {
            let choice = negative_choice(alloc, names, tuples, choice)?;
            Ok(choice)
        }
    }
}

fn positive_choice(
    alloc: Global,
    names: &Names,
    candidates: &TupleList,
    choice: &Choice,
) -> Result<Option<Choice>, Memory>
    ensures choice { IfOk result (λ fitting. (n : ℕ) (t : Fact) → option_map choice_of fitting ≡
        choice_in names.now (PositiveInquiry n t (facts_of candidates.now))
        (choice_of choice.now)) }
{
    match choice {
        Choice::Expand => Ok(Some(Choice::Expand)),
        Choice::Unify(form) => unified(alloc, names, candidates, form),
        Choice::Delete(_) => Ok(None),
    }
}

// The choice of the candidate that has this form by names.
fn unified(
    alloc: Global,
    names: &Names,
    candidates: &TupleList,
    form: &Tuple,
) -> Result<Option<Choice>, Memory>
    ensures choice { IfOk result (λ fitting. option_map choice_of fitting ≡
        option_map (λ u. Unify (outer u))
        (called_by names.now (facts_of candidates.now) (fact_of form.now))) }
{
    match called(alloc, names, candidates.as_slice(), form)? {
        Some(tuple) => Ok(Some(Choice::Unify(tuple.outer(alloc)?))),
        None => Ok(None),
    }
}

fn negative_choice(
    alloc: Global,
    names: &Names,
    tuples: &TupleList,
    choice: &Choice,
) -> Result<Option<Choice>, Memory>
    ensures choice { IfOk result (λ fitting. (n : ℕ) → option_map choice_of fitting ≡
        choice_in names.now (NegativeInquiry n (facts_of tuples.now)) (choice_of choice.now)) }
{
    match choice {
        Choice::Delete(forms) => deleted(alloc, names, tuples, forms),
        Choice::Expand => Ok(None),
        Choice::Unify(_) => Ok(None),
    }
}

// The choice to delete the tuples that have these forms by names, if there is one and each has a tuple.
#[tactic(auto, using(crate::proofs::Called::some_forms))]
fn deleted(
    alloc: Global,
    names: &Names,
    tuples: &TupleList,
    forms: &TupleList,
) -> Result<Option<Choice>, Memory>
    ensures choice { IfOk result (λ fitting. option_map choice_of fitting ≡
        option_map (λ us. Drop (map outer us))
        (some_called names.now (facts_of tuples.now) (facts_of forms.now))) }
{
    if forms.is_empty() {
        return Ok(None);
    }
    match all_called(alloc, names, tuples.as_slice(), forms.as_slice())? {
        Some(chosen) => Ok(Some(Choice::Delete(outer_all(alloc, chosen.as_slice())?))),
        None => Ok(None),
    }
}

// The tuples that have these forms by names, if each has one.
#[tactic(auto, using(crate::proofs::Called::called_start, crate::proofs::Called::called_on, crate::proofs::Called::called_none, crate::proofs::Called::called_all))]
fn all_called(
    alloc: Global,
    names: &Names,
    tuples: &[Tuple],
    forms: &[Tuple],
) -> Result<Option<TupleList>, Memory>
    ensures called { IfOk result (λ chosen. option_map facts_of chosen ≡
        all_called_by names.now (map fact_of tuples.now) (map fact_of forms.now)) }
{
    let mut chosen = TupleList::new(alloc);
    for form in forms {
        let Some(tuple) = called(alloc, names, tuples, form)? else {
            return Ok(None);
        };
        chosen.push(tuple)?;
    }
    Ok(Some(chosen))
}

// The first of the tuples that has this form by names.
#[tactic(auto, using(crate::proofs::Called::passed, crate::proofs::Called::met, crate::proofs::Called::none_met))]
fn called(
    alloc: Global,
    names: &Names,
    tuples: &[Tuple],
    form: &Tuple,
) -> Result<Option<Tuple>, Memory>
    ensures called { IfOk result (λ found. option_map fact_of found ≡
        called_by names.now (map fact_of tuples.now) (fact_of form.now)) }
{
    for tuple in tuples {
        if is_called(alloc, names, tuple, form)? {
            return Ok(Some(tuple.share()?));
        }
    }
    Ok(None)
}

// Whether the tuple has this form by names.
fn is_called(alloc: Global, names: &Names, tuple: &Tuple, form: &Tuple) -> Result<bool, Memory>
    ensures called { IfOk result (λ same. same ≡
        same_fact (fact_named names.now (fact_of tuple.now)) (fact_of form.now)) }
{
    let named = names.tuple(alloc, tuple)?;
    Ok(named == *form)
}

// The outer forms of the tuples.
fn outer_all(alloc: Global, tuples: &[Tuple]) -> Result<TupleList, Memory>
    ensures outer { IfOk result (λ forms. facts_of forms ≡ map outer (map fact_of tuples.now)) }
{
    let mut forms = TupleList::new(alloc);
    for tuple in tuples {
        forms.push(tuple.outer(alloc)?)?;
    }
    Ok(forms)
}

/// The question that the program is at, by names, after the run took `taken` answers. None if there is no such mapping.
pub(crate) fn told(
    alloc: Global,
    over: Over<'_>,
    names: &Names,
    program: &Attempt,
    question: &Question,
    taken: u32,
) -> Result<Option<Told>, Memory>
    ensures told { IfOk result (IsTold (active_in over.entry.run.setting.now) names.now
        (inquiry_of question.now)) }
{
    let Some(asked) = asked_by(alloc, over.run.setting, names, question)? else {
        return Ok(None);
    };
    let so_far = so_far(alloc, over, names, program)?;
    match question {
        Question::Positive { candidates, .. } => {
            let since = since(alloc, over, program)?;
            Ok(Some(Told {
                asked,
                is_positive: true,
                candidates: names.tuples(alloc, candidates.as_slice())?,
                since: names.tuples(alloc, since.as_slice())?,
                so_far,
                taken,
            }))
        }
        Question::Negative { tuples, .. } => Ok(Some(Told {
            asked,
            is_positive: false,
            candidates: names.tuples(alloc, tuples.as_slice())?,
            since: names.tuples(alloc, tuples.as_slice())?,
            so_far,
            taken,
        })),
    }
}

// The image that the program repairs for. In a repair by `fix` it is an image of the mapping that is repaired.
fn since(alloc: Global, over: Over<'_>, program: &Attempt) -> Result<TupleList, Memory> {
    let setting = over.run.setting;
    let Some(bound) = program.bound() else {
        return Ok(TupleList::new(alloc));
    };
    if let (Source::Fix(_), Some(mapping)) = (setting.source(bound.mapping), setting.fixed) {
        return since_fixed(alloc, over, mapping, program, bound.values);
    }
    match setting.in_force.mappings().get(bound.mapping as usize) {
        Some(mapping) => image(alloc, bound.values, &mapping.left),
        None => Ok(TupleList::new(alloc)),
    }
}

// The image of the repaired mapping's left side for these values.
fn since_fixed(
    alloc: Global,
    over: Over<'_>,
    mapping: &Mapping,
    program: &Attempt,
    values: &ValueList,
) -> Result<TupleList, Memory> {
    let mut seen = Overlay::new(alloc, over.facts);
    seen.write_all(alloc, program.own().as_slice())?;
    image_for(alloc, mapping, values.as_slice(), &seen)
}

// What the update has written so far, by names, in the order of the tuples.
fn so_far(
    alloc: Global,
    over: Over<'_>,
    names: &Names,
    program: &Attempt,
) -> Result<WriteList, Memory> {
    let mut touched = Touched::new(alloc);
    touched.made(over.made)?;
    touched.to_make(program.own().as_slice(), over.facts)?;
    touched.net(alloc, names)
}
