// The statements of files.

/// The file, which is file 7; its statements, each with its place, its label, what it is read as in the words of `forms.rt`,
/// its characters and a stroke, and their number; the program: the place of its END, its name and how many items it has, `none` where
/// the units of the file are none that is converted, or `refused`.
pub const STATEMENTS: &str = r#"
      PROGRAM T\n\
      I = 1\n\
     1+ (A.EQ.'X Y')\n\
   10 CONTINUE\n\
      continue\n\
      S T O P\n\
      STOP 1\n\
      I = 1.5\n\
      X = 'A\n\
      EN\n\
     1D\n ~ \
7:1 program T PROGRAMT|7:2 I = {1+({A eq "X Y"})} I=1+(A.EQ.'X|7:4 label 10 continue CONTINUE|7:5 continue CONTINUE|7:6 stop STOP|7:7 stop 1 STOP1|7:8 8 CONSTANT I=1.5|7:9 7 X='A         X='A        |7:10 end END|9 ~ \
refused

      PROGRAM T\n\
      I = 1\n\
      STOP\n\
      END\n ~ \
7:1 program T PROGRAMT|7:2 I = 1 I=1|7:3 stop STOP|7:4 end END|4 ~ \
7:4 T 2

# a comment inside a statement, labels on statements of all sorts
C\n\
    1 INTEGER\n\
C\n\
     1 K, L\n\
 0 2  FORMAT (1X,\n\
\n\
     1 I5)\n\
99999 WRITE (6, *)\n\
   10 REAL X\n\
    3 ELSE\n ~ \
7:2 label 1 integer: K L INTEGERK,L|7:5 label 2 format: (1x,1i5) FORMAT(1X,I5|7:8 label 99999 write(unit 6,format *) WRITE(6,*)|7:9 label 10 8 REAL REALX|7:10 label 3 else ELSE|5 ~ \
refused

# all expressions may stand in a program that is converted; elements, refused statements and labels may not
      PROGRAM T\n\
      A = .NOT. B(1)\n\
      CONTINUE\n\
      STOP\n\
      END\n ~ \
7:1 program T PROGRAMT|7:2 A = {not B[1]} A=.NOT.B(1)|7:3 continue CONTINUE|7:4 stop STOP|7:5 end END|5 ~ \
7:5 T 3

      PROGRAM T\n\
      A(1) = .NOT. B\n\
      CONTINUE\n\
      STOP\n\
      END\n ~ \
7:1 program T PROGRAMT|7:2 A[1] = {not B} A(1)=.NOT.B|7:3 continue CONTINUE|7:4 stop STOP|7:5 end END|5 ~ \
none

      PROGRAM T\n\
      I = 2147483648\n\
      END\n ~ \
7:1 program T PROGRAMT|7:2 9 2147483648 I=2147483648|7:3 end END|3 ~ \
refused

      PROGRAM T\n\
   10 I = 1\n\
      END\n ~ \
7:1 program T PROGRAMT|7:2 label 10 I = 1 I=1|7:3 end END|3 ~ \
none

   10 PROGRAM T\n\
      I = 1\n\
      END\n ~ \
7:1 label 10 program T PROGRAMT|7:2 I = 1 I=1|7:3 end END|3 ~ \
none

      PROGRAM T\n\
      I = 1\n\
   10 END\n ~ \
7:1 program T PROGRAMT|7:2 I = 1 I=1|7:3 label 10 end END|3 ~ \
none

      PROGRAM T\n\
      IF (L) STOP\n\
      END\n ~ \
7:1 program T PROGRAMT|7:2 if(L) stop IF(L)STOP|7:3 end END|3 ~ \
none

# other statements, units without PROGRAM, and two units
      PROGRAM T\n\
      STOP 1\n\
      END\n ~ \
7:1 program T PROGRAMT|7:2 stop 1 STOP1|7:3 end END|3 ~ \
none

      PROGRAM T\n\
      INTEGER I\n\
      END\n ~ \
7:1 program T PROGRAMT|7:2 integer: I INTEGERI|7:3 end END|3 ~ \
none

      PROGRAM T\n\
      F(I) = I\n\
      END\n ~ \
7:1 program T PROGRAMT|7:2 F[I] := I F(I)=I|7:3 end END|3 ~ \
none

      PROGRAM T\n\
      DO 10 I = 1, 2\n\
   10 CONTINUE\n\
      END\n ~ \
7:1 program T PROGRAMT|7:2 do 10 I=1,2 DO10I=1,2|7:3 label 10 continue CONTINUE|7:4 end END|4 ~ \
none

      I = 1\n\
      END\n ~ \
7:1 I = 1 I=1|7:2 end END|2 ~ \
none

      SUBROUTINE S\n\
      END\n ~ \
7:1 subroutine S[] SUBROUTINES|7:2 end END|2 ~ \
none

      PROGRAM T\n\
      END\n\
      PROGRAM U\n\
      END\n ~ \
7:1 program T PROGRAMT|7:2 end END|7:3 program U PROGRAMU|7:4 end END|4 ~ \
none
 ~ 0 ~ none
"#;
