// Expressions.

/// The text; its tree, with braces round each operator and its operands.
pub const OPERATORS: &str = r"
-A**2+B*C ~ {{-{A**2}}+{B*C}}
A**B**C ~ {A**{B**C}}
-A*B ~ {-{A*B}}
A-B-C ~ {{A-B}-C}
A/B*C ~ {{A/B}*C}
A//B//C ~ {{A//B}//C}
A.LT.B.AND..NOT.C ~ {{A lt B} and {not C}}
A.EQV.B.NEQV.C ~ {{A eqv B} neqv C}
A.OR.B.AND.C.OR.D ~ {{A or {B and C}} or D}
.NOT.A.EQ.B.OR.C ~ {{not {A eq B}} or C}
A+B.GT.-C ~ {{A+B} gt {-C}}
+A-B*C**D/E ~ {{+A}-{{B*{C**D}}/E}}
A.LE.B//C ~ {A le {B//C}}
A.NE.B.EQV.C.GE.D.AND.E ~ {{A ne B} eqv {{C ge D} and E}}
(A+B)*C ~ {({A+B})*C}
(-A)**(-B) ~ {({-A})**({-B})}
1.EQ.2 ~ {1 eq 2}
I.EQ.1.OR.J ~ {{I eq 1} or J}
A .eq. b ~ {A eq B}
A B ~ AB
.TRUE. ~ true
.FALSE..EQV.L ~ {false eqv L}
A//-B ~ {A//{-B}}
A.AND..NOT.B.AND.C ~ {{A and {not B}} and C}
";

/// The text; its tree, with square brackets round actual arguments and angle brackets round the bounds of a
/// substring.
pub const PRIMARIES: &str = r#"
F() ~ F[]
F(1,2,3,4,5,6,7,8) ~ F[1,2,3,4,5,6,7,8]
F(A,B(1),(C)) ~ F[A,B[1],(C)]
C(2:3) ~ C<2:3>
C(:) ~ C<:>
C(:I+1) ~ C<:{I+1}>
A(I)(J:) ~ A[I]<J:>
A(I,J)(1:2)//B ~ {A[I,J]<1:2>//B}
'IT''S' ~ "IT'S"
' a ' ~ " a "
'''' ~ "'"
((1)) ~ ((1))
007 ~ 7
2147483647 ~ 2147483647
00000000000002147483647 ~ 2147483647
NAME_OF_31_CHARACTERS_IN_ALL_XY ~ NAME_OF_31_CHARACTERS_IN_ALL_XY
F(G(),-1) ~ F[G[],{-1}]
X1E+5 ~ {X1E+5}
F((1),2) ~ F[(1),2]
F(1,2) ~ F[1,2]
EQ.EQ.NE ~ {EQ eq NE}
"#;

/// The text; number and name of what is refused.
pub const REFUSED_PARTS: &str = r"
2147483648 ~ 9 2147483648
00000000000002147483648 ~ 9 000000000000
NAME_OF_32_CHARACTERS_IN_ALL_XYZ ~ 10 NAME_OF_32_CHARACTERS_IN_ALL_XY
1.5 ~ 8 CONSTANT
1. ~ 8 CONSTANT
.5 ~ 8 CONSTANT
1E3 ~ 8 CONSTANT
1D-3 ~ 8 CONSTANT
1.5E+3*A ~ 8 CONSTANT
.5D0 ~ 8 CONSTANT
1.E5.EQ.2 ~ 8 CONSTANT
1..EQ.2 ~ 8 CONSTANT
A.EQ.1. ~ 8 CONSTANT
A.EQ..5.AND.B ~ 8 CONSTANT
(1,2) ~ 8 CONSTANT
(1.0,2) ~ 8 CONSTANT
(+1,-2.E0)+(1) ~ 8 CONSTANT
F((1,2)) ~ 8 CONSTANT
3HABC ~ 8 CONSTANT
3H.EQ.A ~ 8 CONSTANT
F(*10) ~ 8 RETURN
F(A,*00010) ~ 8 RETURN
F(*10)+1.5 ~ 8 RETURN
A(F(*10))(1:2) ~ 8 RETURN
1.5+F(*10) ~ 8 CONSTANT
2147483648+1.5 ~ 8 CONSTANT
NAME_OF_32_CHARACTERS_IN_ALL_XYZ(99999999999999) ~ 9 999999999999
2147483648+2147483649 ~ 9 2147483648

NAME_OF_32_CHARACTERS_IN_ALL_XYZ+NAME_OF_32_CHARACTERS_IN_ALL_ABC ~ \
10 NAME_OF_32_CHARACTERS_IN_ALL_XY
(2147483648,1) ~ 8 CONSTANT
C(1.5:) ~ 8 CONSTANT
";

/// The text; number and name of what is refused.
pub const NO_EXPRESSIONS: &str = r"
A+*B ~ 7 A+*B
A.FOO.B ~ 7 A.FOO.B
A( ~ 7 A(
) ~ 7 )
A,B ~ 7 A,B
A=B ~ 7 A=B
() ~ 7 ()
A*-B ~ 7 A*-B
A**-B ~ 7 A**-B
.NOT..NOT.A ~ 7 .NOT..NOT.A
A.LT.B.LT.C ~ 7 A.LT.B.LT.C
A + + B ~ 7 A++B
'' ~ 7 ''
A 'B' + C D E F G H I ~ 7 A'B'+CDEFGHI
1.5 X ~ 7 1.5X
1E5X ~ 7 1E5X
1E+X ~ 7 1E+X
1.FOO.2 ~ 7 1.FOO.2
2147483648+ ~ 7 2147483648+
1.5+1.5+1.5+*A ~ 7 1.5+1.5+1.5+
F(*10+1) ~ 7 F(*10+1)
F(*0) ~ 7 F(*0)
F(*123456) ~ 7 F(*123456)
(*10) ~ 7 (*10)
*10 ~ 7 *10
F(,) ~ 7 F(,)
F(A,) ~ 7 F(A,)
F()(1:2) ~ 7 F()(1:2)
A(*10)(1:2) ~ 7 A(*10)(1:2)
A(I,*10)(1:2) ~ 7 A(I,*10)(1:2
C(1:2)(3:4) ~ 7 C(1:2)(3:4)
A(1)(2) ~ 7 A(1)(2)
(A)(1:2) ~ 7 (A)(1:2)
1(2) ~ 7 1(2)
(1,A) ~ 7 (1,A)
(A:B) ~ 7 (A:B)
.TRUE ~ 7 .TRUE
(1)) ~ 7 (1))
";

/// The text, with parentheses inside one another or side by side; its tree, or number and name of what is
/// refused.
pub const NESTING: &str = r"
\200{(}1\200{)} ~ \200{(}1\200{)}
\201{(}1\201{)} ~ 8 DEPTH
\3000{(}1\3000{)} ~ 8 DEPTH
(1)\201{+(1)} ~ \201{{}(1)\201{+(1)\}}
";
