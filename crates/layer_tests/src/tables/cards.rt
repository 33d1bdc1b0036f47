// Lines of files: statements, comments and refusals.

/// The file; its statements, each as its label, its characters with kept text between angle brackets, and a
/// stroke; their lines.
pub const STATEMENTS: &str = r"
 ~  ~
      PROGRAM T\n      I = 7\r\n      END ~ 0:PROGRAM T|0:I = 7|0:END| ~ 1 2 3
      END\r ~ 0:END| ~ 1
     0I = 1\n ~ 0:I = 1| ~ 1
10\n    9\n ~ 10:|9:| ~ 1 2
 1 2  X\n00030 Y\n ~ 12:X|30:Y| ~ 1 2
      I = 1\61{ }OLD00010\n ~ 0:I = 1| ~ 1

      I = 1\n\
C INSIDE\n\
     1  + 2\n\
\n\
     A+ 3\63{ }X\n\
      END\n ~ \
0:I = 1\63{ }+ 2\61{ }+ 3|0:END| ~ \
1 6
      A = 'X\n     1Y' Z\n ~ 0:A = <'X\60{ }Y'> Z| ~ 1
      A = 'IT''S' B 'C'\n ~ 0:A = <'IT''S'> B <'C'>| ~ 1
      A = ''''\n      A = 'B''\n ~ 0:A = <''''>|0:A = <'B''\58{ }>| ~ 1 2
   10 FORMAT(9HHOLLERITH)\n ~ 10:FORMAT(9H<HOLLERITH>)| ~ 1
      FORMAT(9HHOLLERITH)\n ~ 0:FORMAT(9HHOLLERITH)| ~ 1
   10 X = 9HHOLLERITH\n ~ 10:X = 9HHOLLERITH| ~ 1

   10 FORMAT(1 0HABCDEFGHIJ,3H'A',I5,'3HABC',2X)\n ~ \
10:FORMAT(1 0H<ABCDEFGHIJ>,3H<'A'>,I5,<'3HABC'>,2X)| ~ \
1
   10 FORMAT(70HABC\n     1DEF)\n ~ 10:FORMAT(70H<ABC\53{ }DEF)          >| ~ 1
   10 FORMAT(99999999999HABC\n ~ 10:FORMAT(99999999999H<ABC\44{ }>| ~ 1
   10 FOR\n     1MAT(1HX)\n ~ 10:FOR\63{ }MAT(1H<X>)| ~ 1
   10 format(3habc, 1hd)\n      a = 'b'\n ~ 10:format(3h<abc>, 1h<d>)|0:a = <'b'>| ~ 1 2
      A = '\xE9'\n   10 FORMAT(1H\xFF)\n ~ 0:A = <'\xE9'>|10:FORMAT(1H<\xFF>)| ~ 1 2
";

/// The file; its comments as they are written, a stroke behind those of each statement; how many lines are
/// cut.
pub const COMMENTS: &str = r"
C ONE\n\n* TWO ~ ! ONE\n\n! TWO\n ~ 0
      \r\n\r ~       \n\n ~ 0
!\nc ~ !\n!\n ~ 0
*\x01\xFF a\rb\r\n ~ !\x01\xFF a\rb\n ~ 0
CALL F ~ !ALL F\n ~ 0

!first\n\
      PROGRAM T\n\
c\n\
   \n\
      I = 7\r\n\
      END\n\
C last\n\
\n ~ \
!first\n|!\n   \n||! last\n\n ~ \
0
      END\n\r ~ |\n ~ 0
\72{ }LATE\n\80{ }\n ~ !\71{ }LATE\n\80{ }\n ~ 0

      PROGRAM T\n\
C A\n\
      I = 1\61{ }OLD00010\n\
C B\n\
\n\
     1+ 2\63{ }OLD00020\n\
C C\n\
      END\n ~ \
|! A\n! B\n\n|! C\n| ~ \
2
";

/// The file; what is refused, each with line, cause and name, and a stroke.
pub const REFUSALS: &str = r"
      PROGRAM T\n\
1A    I = 1\n\
12   +  + 1\n\
C\132{x}\n\
      \x09I = 1\n\
      END\n ~ \
2 BadLabelField 2|3 BadLabelField 1|4 LineTooLong 133|5 BadCharacter 7|
     1I = 1 ~ 1 ContinuationFirst 6|
C\n     1I = 1\n     2\n      END\n     3\n ~ 2 ContinuationFirst 6|3 ContinuationFirst 6|
      PROGRAM T\n      I = 1\n\100{     1+1\n}      END\n ~ 102 TooManyContinuations 6|
      I = 1\n\103{     1+1\n}      END\n ~ 101 TooManyContinuations 6|

      I = 1\n\
9    1+1\n\
9    1+1\n\
C\n\
\98{     1+1\n} ~ \
2 BadLabelField 1|3 BadLabelField 1|102 TooManyContinuations 6|
00    I = 1\n 0  0\n  X\n ~ 1 BadLabelField 1|2 BadLabelField 1|3 BadLabelField 3|

      A = '\x01'\n\
      A = 1\x7F\n\
      A\xE9 = 1\n ~ \
1 BadCharacter 12|2 BadCharacter 12|3 BadCharacter 8|
      A = 1\n     \x01+ 1\n     \xE9+ 1\n ~ 2 BadCharacter 6|3 BadCharacter 6|
      FORMAT(1H\xE9)\n ~ 1 BadCharacter 16|
A     \x01\nA    \x01\x01\n ~ 1 BadLabelField 1|2 BadLabelField 1|
1A    I = 'X\n     1\xE9\n ~ 1 BadLabelField 2|2 BadCharacter 7|
      I = 1\n     1'\x01\n     2\xE9\n ~ 2 BadCharacter 8|3 BadCharacter 7|
      I = 'X\n     1\x01\n     2\xE9'\n ~ 2 BadCharacter 7|
      I = 'A\n1A    J = 1\n     1\xE9\n ~ 2 BadLabelField 2|

      I = 1\n\98{     1+1\n}1A    J = 1\n     1+1\n     1+1\n ~ \
100 BadLabelField 2|
";
