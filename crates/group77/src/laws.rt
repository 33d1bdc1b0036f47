// What holds of the grammar of expressions.
ghost use Rattle.std.specs.Prelude.{◌≡◌, List, Some};
ghost use Rattle.text_base.specs.Trees.{Expr};
ghost use Rattle.tree77.specs.Expressions.{Symbol, IsExpression};
ghost use Rattle.group77.specs.Building.{build};

/// No symbols are two expressions (X3.9 section 6).
pub fn one_tree()
    ensures { (t : List Symbol) (x y : Expr) → IsExpression t x → IsExpression t y → x ≡ y }
{}

/// What is built from symbols is the expression that they are, and each expression is built.
pub fn grouped_expressions()
    ensures found { (t : List Symbol) (x : Expr) → build t ≡ Some x → IsExpression t x }
    ensures only { (t : List Symbol) (x : Expr) → IsExpression t x → build t ≡ Some x }
{}
