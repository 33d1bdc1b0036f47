// The tokens of statements: each as a letter for its kind, its characters and a stroke.

/// Columns 1 to 6; the statement; its tokens.
pub const TOKENS: &str = r"
\6{ } ~ A1_B+12AB*'IT''S'(3:) ~ RA1_B|M+|D12|RAB|M*|T'IT''S'|M(|D3|M:|M)|
     0 ~  ~
   10\1{ } ~ FORMAT(5HAB CD) ~ RFORMAT|M(|D5|RH|TAB CD|M)|
   10\1{ } ~ FORMAT(3H'A''B',0H,I5H) ~ RFORMAT|M(|D3|RH|T'A'|T'B'|M,|D0|RH|M,|RI5H|T)    |
\6{ } ~ FORMAT(5HAB CD) ~ RFORMAT|M(|D5|RHABCD|M)|
\6{ } ~ 'A' 'B' ~ T'A'|T'B'|
\6{ } ~ a B = x . eq. 1 2 ~ RAB|M=|RX|M.|REQ|M.|D12|
\6{ } ~ (),=+-*/:. ~ M(|M)|M,|M=|M+|M-|M*|M/|M:|M.|
\6{ } ~ '\xE9''' A ~ T'\xE9'''|RA|
\6{ } ~ 1.EQ.2 ~ D1|M.|REQ|M.|D2|
";

/// Statements that have no tokens.
pub const NO_TOKENS: &str = r#"
A = 'B
A = 'B''
"
I#1
_A
1_A
A $
A = ''' B
A ! B
A<B
"#;

/// The statement; its keyword; the tokens behind it.
pub const BEHIND_A_KEYWORD: &str = r"
CALLS(1) ~ CALL ~ RS|M(|D1|M)|
GO TO 10 ~ GOTO ~ D10|
DO10I=1,5 ~ DO ~ D10|RI|M=|D1|M,|D5|
";
