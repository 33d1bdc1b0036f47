// The text of expressions.

/// The FORTRAN 77 expression; its text in Fortran 90.
pub const EXPRESSIONS: &str = r"
-A**2+B*C/D-1 ~ -A ** 2 + B * C / D - 1
2147483647 ~ 2147483647
0 ~ 0
(A+B)*(-C) ~ (A + B) * (-C)
A.LT.B.AND..NOT.C.LE.D.OR.E ~ A < B .AND. .NOT. C <= D .OR. E
A.EQ.B.EQV.C.NE.D.NEQV.E.GT.F ~ A == B .EQV. C /= D .NEQV. E > F
A.GE.B ~ A >= B
.TRUE..OR..FALSE. ~ .TRUE. .OR. .FALSE.
'IT''S'//C(2:) ~ 'IT''S' // C(2:)
F()+F(1,G(2),C(:I+1)) ~ F() + F(1, G(2), C(:I + 1))
W(I,J)(1:2)//C(:) ~ W(I, J)(1:2) // C(:)
+NAME_OF_31_CHARACTERS_IN_ALL_XY ~ +NAME_OF_31_CHARACTERS_IN_ALL_XY
";

/// The FORTRAN 77 expression; its tree, with braces round each operator and its operands, and square brackets
/// round actual arguments; its text in Fortran 90, of which the tree is the same.
pub const PARENTHESES: &str = r"
-A**2 ~ {-{A**2}} ~ -A ** 2
(-A)**2 ~ {({-A})**2} ~ (-A) ** 2
-2**2 ~ {-{2**2}} ~ -2 ** 2
A**(-2) ~ {A**({-2})} ~ A ** (-2)
A**B**C ~ {A**{B**C}} ~ A ** B ** C
A**(B**C) ~ {A**({B**C})} ~ A ** (B ** C)
(A**B)**C ~ {({A**B})**C} ~ (A ** B) ** C
-A**B**C ~ {-{A**{B**C}}} ~ -A ** B ** C
A*B**C ~ {A*{B**C}} ~ A * B ** C
(A*B)**C*D ~ {{({A*B})**C}*D} ~ (A * B) ** C * D
A-B-C ~ {{A-B}-C} ~ A - B - C
(A-B)-C ~ {({A-B})-C} ~ (A - B) - C
A-(B-C) ~ {A-({B-C})} ~ A - (B - C)
A-(B+C)+D ~ {{A-({B+C})}+D} ~ A - (B + C) + D
A/B*C ~ {{A/B}*C} ~ A / B * C
A*B/C ~ {{A*B}/C} ~ A * B / C
A*(B/C) ~ {A*({B/C})} ~ A * (B / C)
A/(B*C) ~ {A/({B*C})} ~ A / (B * C)
A/(B/C) ~ {A/({B/C})} ~ A / (B / C)
A+B*C ~ {A+{B*C}} ~ A + B * C
(A+B)*C ~ {({A+B})*C} ~ (A + B) * C
A*(B+C)/(D-E) ~ {{A*({B+C})}/({D-E})} ~ A * (B + C) / (D - E)
-(-A) ~ {-({-A})} ~ -(-A)
-A*B ~ {-{A*B}} ~ -A * B
(-A)*B ~ {({-A})*B} ~ (-A) * B
-(A*B) ~ {-({A*B})} ~ -(A * B)
A*(-B) ~ {A*({-B})} ~ A * (-B)
-A+B ~ {{-A}+B} ~ -A + B
-(A+B) ~ {-({A+B})} ~ -(A + B)
-A/B-C ~ {{-{A/B}}-C} ~ -A / B - C
+A-(+B) ~ {{+A}-({+B})} ~ +A - (+B)
A-(-(B-(-C))) ~ {A-({-({B-({-C})})})} ~ A - (-(B - (-C)))
(-2147483647-1)/(-1) ~ {({{-2147483647}-1})/({-1})} ~ (-2147483647 - 1) / (-1)
((A)) ~ ((A)) ~ ((A))
MOD(A,B)**2 ~ {MOD[A,B]**2} ~ MOD(A, B) ** 2
MAX(A,B,C)-(D) ~ {MAX[A,B,C]-(D)} ~ MAX(A, B, C) - (D)
-ABS(-A) ~ {-ABS[{-A}]} ~ -ABS(-A)
SIGN(A+B,-C)*IDIM((A),B-1) ~ {SIGN[{A+B},{-C}]*IDIM[(A),{B-1}]} ~ SIGN(A + B, -C) * IDIM((A), B - 1)
MAX(MOD(A,-B),(ABS(-(C))),MIN0(1,D**2)) ~ MAX[MOD[A,{-B}],(ABS[{-(C)}]),MIN0[1,{D**2}]] ~ \
MAX(MOD(A, -B), (ABS(-(C))), MIN0(1, D ** 2))
";
