// What the specifiers of a control list set, each once (X3.9 section 12.8.1).
ghost use Rattle.std.specs.Prelude.{◌≡◌, ◌∷◌, map, Some, None, if◌then◌else◌};
ghost use Rattle.std.specs.Option.{option_map, option_and_then};
ghost use Rattle.tree77.specs.TransferForms as form;
ghost use Rattle.transfer77.specs.Steps.{IsSet, IsAdded, collected_from};
ghost use Rattle.transfer77.specs.Views.{settings_of, specifier_of, others_of, specifiers_of};

use crate::specifiers::{Others, Specifier, Specifiers};
use expr_tree::Expr;
use forms77::discard;
use sqlite_items::Items;
use text_base::Name;
use tree77::{FormatRef77, UnitRef77};

/// What specifiers have set.
#[derive(Drop)]
pub struct Settings {
    pub unit: Option<UnitRef77>,
    pub format: Option<FormatRef77>,
    pub file: Option<Expr>,
    pub status: Option<Expr>,
    pub iostat: Option<Name>,
    pub error: Option<u32>,
    pub ending: Option<u32>,
}

impl Settings {
    /// Nothing is set.
    fn new() -> Settings
        ensures { settings_of result ≡ form.nothing_set }
    {
        Settings {
            unit: None,
            format: None,
            file: None,
            status: None,
            iostat: None,
            error: None,
            ending: None,
        }
    }

    /// Takes a specifier, and says whether it may stand.
    fn add(&mut self, specifier: Specifier) -> bool
        ensures { IsAdded (settings_of self.old) (specifier_of specifier) result (settings_of self.new) }
    {
        match specifier {
            Specifier::FirstUnit(unit) => set(&mut self.unit, unit),
            Specifier::SecondFormat(format) => set(&mut self.format, format),
            Specifier::Unit(unit) => set(&mut self.unit, unit),
            Specifier::Format(format) => set(&mut self.format, format),
            Specifier::File(expr) => set(&mut self.file, expr),
            Specifier::Status(expr) => set(&mut self.status, expr),
            Specifier::Iostat(name) => set(&mut self.iostat, name),
            Specifier::Error(label) => set(&mut self.error, label),
            Specifier::Ending(label) => set(&mut self.ending, label),
            Specifier::Other => true,
        }
    }

    /// Takes specifiers, the last first, and says whether all may stand.
    #[tactic(auto, using(crate::proofs::LastFirst::from_last))]
    fn add_all(&mut self, mut specifiers: Items<Specifier>) -> bool
        ensures { form.settings_from (settings_of self.old) (map specifier_of specifiers) ≡ (if result then Some (settings_of self.new) else None) }
    {
        while let Some(specifier) = specifiers.pop() {
            if !self.add(specifier) {
                return false;
            }
        }
        true
    }

    /// Takes a second specifier and further ones, and says whether all may stand.
    fn add_others(&mut self, others: Others) -> bool
        ensures { form.settings_from (settings_of self.old) (specifier_of others.second ∷ map specifier_of others.more) ≡ (if result then Some (settings_of self.new) else None) }
    {
        let Others { second, more } = others;
        if self.add_all(more) {
            return self.add(second);
        }
        discard(second);
        false
    }

    /// Takes what stands behind the first specifier, and says whether all may stand.
    fn add_behind(&mut self, first: &Specifier, others: Option<Others>) -> bool
        ensures { option_and_then (form.settings_from (settings_of self.old)) (form.behind_first (specifier_of first.now) (option_map others_of others)) ≡ (if result then Some (settings_of self.new) else None) }
    {
        match others {
            None => true,
            Some(others) => {
                if may_follow(first, &others.second) {
                    return self.add_others(others);
                }
                discard(others);
                false
            }
        }
    }

    /// Takes all specifiers of a control list, the first one last, and says whether all may stand.
    fn add_list(&mut self, specifiers: Specifiers) -> bool
        ensures { collected_from (settings_of self.old) (specifiers_of specifiers) ≡ (if result then Some (settings_of self.new) else None) }
    {
        let Specifiers { first, others } = specifiers;
        if self.add_behind(&first, others) {
            return self.add(first);
        }
        discard(first);
        false
    }
}

/// Sets what isn't set yet, and says whether it wasn't.
fn set<T: Drop>(place: &mut Option<T>, value: T) -> bool
    ensures { IsSet place.old value result place.new }
{
    if place.is_some() {
        return false;
    }
    *place = Some(value);
    true
}

fn is_first(specifier: &Specifier) -> bool
    ensures { result ≡ form.is_first (specifier_of specifier.now) }
{
    match specifier {
        Specifier::FirstUnit(_) => true,
        Specifier::SecondFormat(_) => false,
        Specifier::Unit(_) => false,
        Specifier::Format(_) => false,
        Specifier::File(_) => false,
        Specifier::Status(_) => false,
        Specifier::Iostat(_) => false,
        Specifier::Error(_) => false,
        Specifier::Ending(_) => false,
        Specifier::Other => false,
    }
}

fn is_second(specifier: &Specifier) -> bool
    ensures { result ≡ form.is_second (specifier_of specifier.now) }
{
    match specifier {
        Specifier::SecondFormat(_) => true,
        Specifier::FirstUnit(_) => false,
        Specifier::Unit(_) => false,
        Specifier::Format(_) => false,
        Specifier::File(_) => false,
        Specifier::Status(_) => false,
        Specifier::Iostat(_) => false,
        Specifier::Error(_) => false,
        Specifier::Ending(_) => false,
        Specifier::Other => false,
    }
}

/// Whether a specifier may stand behind the first one: a format without a keyword needs a unit without one before it.
fn may_follow(first: &Specifier, second: &Specifier) -> bool
    ensures { result ≡ form.may_follow (specifier_of first.now) (specifier_of second.now) }
{
    is_first(first) || !is_second(second)
}

/// What the specifiers of a control list set. `None` where one may not stand.
pub fn collect(specifiers: Specifiers) -> Option<Settings>
    ensures { option_map settings_of result ≡ form.collected (specifiers_of specifiers) }
{
    let mut settings = Settings::new();
    if settings.add_list(specifiers) {
        return Some(settings);
    }
    discard(settings);
    None
}
