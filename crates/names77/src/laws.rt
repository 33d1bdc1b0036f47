// What holds of the definitions.
ghost use Rattle.names77.specs.RoleLaws.{RolesAreNarrowed};
ghost use Rattle.names77.specs.TextLaws.{KeepsTheText};

/// The text of a unit is the statements that make it, as they stood.
pub fn text_is_kept()
    ensures { KeepsTheText }
{}

/// Of two things that are said of a name and agree, both count; of two that don't, the first. A name of which no more is said
/// has a role that is allowed.
pub fn roles_are_narrowed()
    ensures { RolesAreNarrowed }
{}
