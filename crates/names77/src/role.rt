// The roles of names.
ghost use Rattle.std.specs.Prelude.{◌≡◌};
ghost use Rattle.names77.specs.Roles.{allows, agree, is_within, narrowed, first_role};

/// What a name is in its unit (X3.9 section 18.2): a variable or array, a dummy, a constant, the function's own name, another
/// function, a procedure of which no more is known, a subroutine, a statement function, an intrinsic function, or the name of
/// the main program or BLOCK DATA.
#[derive(Clone, Copy, Debug, PartialEq, Eq)]
pub enum Role {
    Variable,
    Dummy,
    Constant,
    Result,
    Function,
    External,
    Subroutine,
    StmtFunction,
    Intrinsic,
    Unit,
}

/// The roles that a name may have by what is said of it: any; those with a value; those that may be defined; those that may
/// have dimensions; those of procedures; or one alone.
#[derive(Clone, Copy, Debug, PartialEq, Eq)]
pub enum Allowed {
    Anything,
    Valued,
    Definable,
    Dimensioned,
    Procedure,
    Only(Role),
}

impl Allowed {
    /// Whether a role is allowed.
    pub fn allows(self, role: Role) -> bool
        ensures { result ≡ allows self role }
    {
        match self {
            Allowed::Anything => true,
            Allowed::Valued => matches!(
                role,
                Role::Variable | Role::Dummy | Role::Constant | Role::Result
            ),
            Allowed::Definable => matches!(role, Role::Variable | Role::Dummy | Role::Result),
            Allowed::Dimensioned => matches!(role, Role::Variable | Role::Dummy),
            Allowed::Procedure => {
                matches!(role, Role::Function | Role::External | Role::Subroutine)
            }
            Allowed::Only(only) => only == role,
        }
    }

    // Whether it allows no role that the other doesn't.
    fn is_within(self, other: Allowed) -> bool
        ensures { result ≡ is_within self other }
    {
        match self {
            Allowed::Anything => matches!(other, Allowed::Anything),
            Allowed::Valued => matches!(other, Allowed::Anything | Allowed::Valued),
            Allowed::Definable => matches!(
                other,
                Allowed::Anything | Allowed::Valued | Allowed::Definable
            ),
            Allowed::Dimensioned => !matches!(other, Allowed::Procedure | Allowed::Only(_)),
            Allowed::Procedure => matches!(other, Allowed::Anything | Allowed::Procedure),
            Allowed::Only(role) => other.allows(role),
        }
    }

    /// Whether some role is allowed by both.
    pub fn agrees(self, other: Allowed) -> bool
        ensures { result ≡ agree self other }
    {
        self.is_within(other) || other.is_within(self)
    }

    /// What both allow, where they agree; else what this one allows.
    pub fn narrowed(self, other: Allowed) -> Allowed
        ensures { result ≡ narrowed self other }
    {
        if other.is_within(self) { other } else { self }
    }

    /// The role of a name of which no more is said.
    pub fn first_role(self) -> Role
        ensures { result ≡ first_role self }
    {
        match self {
            Allowed::Procedure => Role::External,
            Allowed::Only(role) => role,
            _ => Role::Variable,
        }
    }
}
