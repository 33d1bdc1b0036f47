// Whole files.

/// The file; what is written of it: the text, the map and the report.
pub const CONVERTED: &str = r"
      PROGRAM T\n\
      I = 1\n\
      J = I + 2 - 5\n\
      STOP\n\
      END\n ~ \
PROGRAM T\n\
  IMPLICIT NONE\n\
  SAVE\n\
  INTEGER :: I\n\
  INTEGER :: J\n\
  I = 1\n\
  J = I + 2 - 5\n\
  STOP\n\
END PROGRAM T\n ~ \
T.I 0 1 I T:I 1\nT.J 0 1 I T:J 1\n ~ \
UNITS 1\nWEBS 0\nKEPT 0\nARRAYS 0\nCUT 0\n

      PROGRAM T\n\
      I = -2147483647 - 1\n\
      END\n ~ \
PROGRAM T\n\
  IMPLICIT NONE\n\
  SAVE\n\
  INTEGER :: I\n\
  I = -2147483647 - 1\n\
END PROGRAM T\n ~ \
T.I 0 1 I T:I 1\n ~ \
UNITS 1\nWEBS 0\nKEPT 0\nARRAYS 0\nCUT 0\n

# the variable of the left side stands first in the text
      PROGRAM T\n      J = I\n      END\n ~ \
PROGRAM T\n\
  IMPLICIT NONE\n\
  SAVE\n\
  INTEGER :: J\n\
  INTEGER :: I\n\
  J = I\n\
END PROGRAM T\n ~ \
T.J 0 1 I T:J 1\nT.I 0 1 I T:I 1\n ~ \
UNITS 1\nWEBS 0\nKEPT 0\nARRAYS 0\nCUT 0\n

# blanks inside names, constants and keywords
      P R O G R A M T\n\
      I J = + 0 0 1 2\n\
      C O N T I N U E\n\
      S T O P\n\
      E N D\n ~ \
PROGRAM T\n\
  IMPLICIT NONE\n\
  SAVE\n\
  INTEGER :: IJ\n\
  IJ = +12\n\
  STOP\n\
END PROGRAM T\n ~ \
T.IJ 0 1 I T:IJ 1\n ~ \
UNITS 1\nWEBS 0\nKEPT 0\nARRAYS 0\nCUT 0\n

# lower and mixed case
      program t\n\
      Next=next-K\n\
      stop\n\
      Stop\n\
      Continue\n\
      end\n ~ \
PROGRAM T\n\
  IMPLICIT NONE\n\
  SAVE\n\
  INTEGER :: NEXT\n\
  INTEGER :: K\n\
  NEXT = NEXT - K\n\
  STOP\n\
  STOP\n\
END PROGRAM T\n ~ \
T.NEXT 0 1 I T:NEXT 1\nT.K 0 1 I T:K 1\n ~ \
UNITS 1\nWEBS 0\nKEPT 0\nARRAYS 0\nCUT 0\n

      PROGRAM T\n\
      I = 7\n\
      J = 007\n\
      I = 12\n\
      END\n ~ \
PROGRAM T\n\
  IMPLICIT NONE\n\
  SAVE\n\
  INTEGER :: I\n\
  INTEGER :: J\n\
  I = 7\n\
  J = 7\n\
  I = 12\n\
END PROGRAM T\n ~ \
T.I 0 1 I T:I 1\nT.J 0 1 I T:J 1\n ~ \
UNITS 1\nWEBS 0\nKEPT 0\nARRAYS 0\nCUT 0\n

# comments at each place: before the header, after it, before a statement, before a CONTINUE, before END, after END
C1\n\
\n\
      PROGRAM T\n\
*2\n\
      I = 1\n\
!3\n\
      I = 2\n\
c4\n\
      CONTINUE\n\
   \n\
      STOP\n\
C 5\n\
      END\n\
*6\n ~ \
!1\n\
\n\
PROGRAM T\n\
!2\n\
  IMPLICIT NONE\n\
  SAVE\n\
  INTEGER :: I\n\
  I = 1\n\
!3\n\
  I = 2\n\
!4\n\
   \n\
  STOP\n\
! 5\n\
END PROGRAM T\n\
!6\n ~ \
T.I 0 1 I T:I 1\n ~ \
UNITS 1\nWEBS 0\nKEPT 0\nARRAYS 0\nCUT 0\n

# END is the first executable statement
      PROGRAM T\nC\n      END\n\n ~ \
PROGRAM T\n\
!\n\
  IMPLICIT NONE\n\
  SAVE\n\
END PROGRAM T\n\
\n ~ \
 ~ \
UNITS 1\nWEBS 0\nKEPT 0\nARRAYS 0\nCUT 0\n

      PROGRAM T\n      CONTINUE\n      END\n ~ \
PROGRAM T\n\
  IMPLICIT NONE\n\
  SAVE\n\
END PROGRAM T\n ~ \
 ~ \
UNITS 1\nWEBS 0\nKEPT 0\nARRAYS 0\nCUT 0\n

# columns after 72
C     FIRST\n\
      PROGRAM T\n\
      I = 1\61{ }OLD00010\n\
*     NEXT\n\
      J = I + 2 - 5\n\
\n\
      STOP\n\
      END\n ~ \
!     FIRST\n\
PROGRAM T\n\
  IMPLICIT NONE\n\
  SAVE\n\
  INTEGER :: I\n\
  INTEGER :: J\n\
  I = 1\n\
!     NEXT\n\
  J = I + 2 - 5\n\
\n\
  STOP\n\
END PROGRAM T\n ~ \
T.I 0 1 I T:I 1\nT.J 0 1 I T:J 1\n ~ \
UNITS 1\nWEBS 0\nKEPT 0\nARRAYS 0\nCUT 1\n

# continuation lines, with comments inside statements
      PROGRAM T\n\
C A\n\
     1  EST\n\
      I = 1\n\
C B\n\
\n\
     1  + 2\61{ }OLD\n\
C C\n\
     2- 3\n\
      J = 2\n\
* D\n\
     1 + I\n\
      EN\n\
! E\n\
     1D\n\
C F\n ~ \
! A\n\
PROGRAM TEST\n\
! B\n\
\n\
! C\n\
  IMPLICIT NONE\n\
  SAVE\n\
  INTEGER :: I\n\
  INTEGER :: J\n\
  I = 1 + 2 - 3\n\
! D\n\
  J = 2 + I\n\
! E\n\
END PROGRAM TEST\n\
! F\n ~ \
TEST.I 0 1 I TEST:I 1\nTEST.J 0 1 I TEST:J 1\n ~ \
UNITS 1\nWEBS 0\nKEPT 0\nARRAYS 0\nCUT 1\n

# a 0 in column 6, CR before LF and at the end, a line of blanks past column 72
     0PROGRAM T\r\n\
     0I = 1\r\n\
\80{ }\r\n\
      end\r ~ \
PROGRAM T\n\
  IMPLICIT NONE\n\
  SAVE\n\
  INTEGER :: I\n\
  I = 1\n\
\80{ }\n\
END PROGRAM T\n ~ \
T.I 0 1 I T:I 1\n ~ \
UNITS 1\nWEBS 0\nKEPT 0\nARRAYS 0\nCUT 0\n

# something after column 72 alone, and comments of 132 bytes
\72{ }LATE\n\
      PROGRAM T\n\
C\131{x}\n\
      END\64{ }\n ~ \
!\71{ }LATE\n\
PROGRAM T\n\
!\131{x}\n\
  IMPLICIT NONE\n\
  SAVE\n\
END PROGRAM T\n ~ \
 ~ \
UNITS 1\nWEBS 0\nKEPT 0\nARRAYS 0\nCUT 0\n

# a written line of 132 characters
      PROGRAM T\n\
      I=\31{N}+\31{N}+\n\
     1\31{N}+\24{M}\n\
      END\n ~ \
PROGRAM T\n\
  IMPLICIT NONE\n\
  SAVE\n\
  INTEGER :: I\n\
  INTEGER :: \31{N}\n\
  INTEGER :: \24{M}\n\
  I = \31{N} + \31{N} + \31{N} + \24{M}\n\
END PROGRAM T\n ~ \
T.I 0 1 I T:I 1\n\
T.\31{N} 0 1 I T:\31{N} 1\n\
T.\24{M} 0 1 I T:\24{M} 1\n ~ \
UNITS 1\nWEBS 0\nKEPT 0\nARRAYS 0\nCUT 0\n

# products, quotients and powers with parentheses, and comments between
C     AREA OF A FRAME\n\
      PROGRAM FRAME\n\
      IWIDE = 12\n\
*     BOTH SIDES\n\
      INNER = (IWIDE - 2*3)*(IWIDE/5 + 1)\n\
!\n\
      KEPT=-(IWIDE**2-INNER)/(-7)\n\
\n\
      KEPT = ((KEPT))*IWIDE**(-1)\n\
      STOP\n\
      END\n ~ \
!     AREA OF A FRAME\n\
PROGRAM FRAME\n\
  IMPLICIT NONE\n\
  SAVE\n\
  INTEGER :: IWIDE\n\
  INTEGER :: INNER\n\
  INTEGER :: KEPT\n\
  IWIDE = 12\n\
!     BOTH SIDES\n\
  INNER = (IWIDE - 2 * 3) * (IWIDE / 5 + 1)\n\
!\n\
  KEPT = -(IWIDE ** 2 - INNER) / (-7)\n\
\n\
  KEPT = ((KEPT)) * IWIDE ** (-1)\n\
  STOP\n\
END PROGRAM FRAME\n ~ \
FRAME.IWIDE 0 1 I FRAME:IWIDE 1\n\
FRAME.INNER 0 1 I FRAME:INNER 1\n\
FRAME.KEPT 0 1 I FRAME:KEPT 1\n ~ \
UNITS 1\nWEBS 0\nKEPT 0\nARRAYS 0\nCUT 0\n

# operators that group from the right and from the left
      PROGRAM T\n\
      I = J**K**L - (J - (K - L)) - J/(K*L)/(J/K*L)\n\
      END\n ~ \
PROGRAM T\n\
  IMPLICIT NONE\n\
  SAVE\n\
  INTEGER :: I\n\
  INTEGER :: J\n\
  INTEGER :: K\n\
  INTEGER :: L\n\
  I = J ** K ** L - (J - (K - L)) - J / (K * L) / (J / K * L)\n\
END PROGRAM T\n ~ \
T.I 0 1 I T:I 1\n\
T.J 0 1 I T:J 1\n\
T.K 0 1 I T:K 1\n\
T.L 0 1 I T:L 1\n ~ \
UNITS 1\nWEBS 0\nKEPT 0\nARRAYS 0\nCUT 0\n

# the intrinsic functions of integers, which are no variables, and a comment inside a statement
      PROGRAM T\n\
      N = 100\n\
C FIRST\n\
      M = MOD(N, 7) + MAX(N, K, -3)*MIN0(1, 2)\n\
      M = ISIGN(IABS(M - N), -1)\n\
C INSIDE\n\
     1  - IDIM(MAX0(M, 1), MIN(N, 2))\n\
      M = ABS(SIGN(DIM(N, (M)), -L))\n\
      STOP\n\
      END\n ~ \
PROGRAM T\n\
  IMPLICIT NONE\n\
  SAVE\n\
  INTEGER :: N\n\
  INTEGER :: M\n\
  INTEGER :: K\n\
  INTEGER :: L\n\
  N = 100\n\
! FIRST\n\
  M = MOD(N, 7) + MAX(N, K, -3) * MIN0(1, 2)\n\
! INSIDE\n\
  M = ISIGN(IABS(M - N), -1) - IDIM(MAX0(M, 1), MIN(N, 2))\n\
  M = ABS(SIGN(DIM(N, (M)), -L))\n\
  STOP\n\
END PROGRAM T\n ~ \
T.N 0 1 I T:N 1\n\
T.M 0 1 I T:M 1\n\
T.K 0 1 I T:K 1\n\
T.L 0 1 I T:L 1\n ~ \
UNITS 1\nWEBS 0\nKEPT 0\nARRAYS 0\nCUT 0\n

# variables that have names of functions, which aren't called
      PROGRAM T\n\
      MAX = 3\n\
      MIN = MAX*MAX\n\
      MOD = -MIN/MAX\n\
      I = MAX0(MAX, MIN)\n\
      END\n ~ \
PROGRAM T\n\
  IMPLICIT NONE\n\
  SAVE\n\
  INTEGER :: MAX\n\
  INTEGER :: MIN\n\
  INTEGER :: MOD\n\
  INTEGER :: I\n\
  MAX = 3\n\
  MIN = MAX * MAX\n\
  MOD = -MIN / MAX\n\
  I = MAX0(MAX, MIN)\n\
END PROGRAM T\n ~ \
T.MAX 0 1 I T:MAX 1\n\
T.MIN 0 1 I T:MIN 1\n\
T.MOD 0 1 I T:MOD 1\n\
T.I 0 1 I T:I 1\n ~ \
UNITS 1\nWEBS 0\nKEPT 0\nARRAYS 0\nCUT 0\n

# blanks inside operators and names of functions, lower case, leading zeros
      program t\n\
      i = 2 * * 3 + ( 1 0 / 4 )\n\
      j=m o d(i,003)*(+0 2)\n\
      end\n ~ \
PROGRAM T\n\
  IMPLICIT NONE\n\
  SAVE\n\
  INTEGER :: I\n\
  INTEGER :: J\n\
  I = 2 ** 3 + (10 / 4)\n\
  J = MOD(I, 3) * (+2)\n\
END PROGRAM T\n ~ \
T.I 0 1 I T:I 1\n\
T.J 0 1 I T:J 1\n ~ \
UNITS 1\nWEBS 0\nKEPT 0\nARRAYS 0\nCUT 0\n
";

/// The file; what is refused of it.
pub const REFUSED: &str = r"
# no END
      PROGRAM T\n      I = 1\n ~ t.f:2: 13 MissingEnd T\n

# END twice, and a statement after END
      PROGRAM T\n      I = 1\n      END\n      END\n ~ t.f:0: 99 NotBuilt 0\n
      PROGRAM T\n      END\n      I = 1\n ~ t.f:3: 13 MissingEnd MAIN\n

# two main programs
      PROGRAM T\n      END\n      PROGRAM U\n      END\n ~ t.f:0: 99 NotBuilt 0\n

# no PROGRAM statement, and two
      I = 1\n      END\n ~ t.f:0: 99 NotBuilt 0\n
      PROGRAM T\n      PROGRAM T\n      END\n ~ t.f:2: 11 StatementOrder PROGRAM\n

# comments alone, and nothing
C     FIRST\n\n*     NEXT\n ~ t.f:0: 99 NotBuilt 0\n
 ~ t.f:0: 99 NotBuilt 0\n

# a variable that isn't an integer, on either side
      PROGRAM T\n      A = 1\n      END\n ~ t.f:2: 14 RealType A\n
      PROGRAM T\n      I = A\n      END\n ~ t.f:2: 14 RealType A\n

# a variable of the program's name, on either side
      PROGRAM I\n      I = 1\n      END\n ~ t.f:2: 15 Redeclared I\n
      PROGRAM I\n      J = I\n      END\n ~ t.f:2: 15 Redeclared I\n

# a constant past the integers
      PROGRAM T\n      I = 2147483648\n      END\n ~ t.f:2: 9 ConstantRange 2147483648\n
      PROGRAM T\n      I = J - 2147483648\n      END\n ~ t.f:2: 9 ConstantRange 2147483648\n
      PROGRAM T\n      J = 123456789012345\n      END\n ~ t.f:2: 9 ConstantRange 123456789012\n

# a name of 32 letters
      PROGRAM T\n      \32{I} = 1\n      END\n ~ t.f:2: 10 NameTooLong \31{I}\n

# two operators together, a logical, a function that isn't intrinsic, an operator at the end
      PROGRAM T\n      I = 2 + -3\n      END\n ~ t.f:2: 7 NotAStatement I=2+-3\n
      PROGRAM T\n      I = (.TRUE.)\n      END\n ~ t.f:2: 99 NotBuilt I=(.TRUE.)\n

C     FIRST\n\
      PROGRAM T\n\
      I = 1\n\
*     NEXT\n\
      J = K(I) * 2\n\
\n\
      STOP\n\
      END\n ~ \
t.f:5: 99 NotBuilt J=K(I)*2\n
      PROGRAM T\n      I = 1 +\n      END\n ~ t.f:2: 7 NotAStatement I=1+\n

# a missing side
      PROGRAM T\n      I =\n      END\n ~ t.f:2: 7 NotAStatement I=\n
      PROGRAM T\n      = 1\n      END\n ~ t.f:2: 7 NotAStatement =1\n
      PROGRAM T\n      I == 1\n      END\n ~ t.f:2: 7 NotAStatement I==1\n

# a code of STOP, a label
      PROGRAM T\n\
      STOP 1\n\
   10 CONTINUE\n\
      END\n ~ \
t.f:2: 99 NotBuilt STOP1\n\
t.f:3: 99 NotBuilt CONTINUE\n

# statements without characters
      PROGRAM T\n\
      STOP 1\n\
     0\n\
10\n\
      END\n ~ \
t.f:3: 7 NotAStatement \n\
t.f:4: 7 NotAStatement \n

# all of them, in order, lower case read as upper case
      PROGRAM T\n\
      x = 1\n\
C\n\
      go to 10\n\
      i = t\n\
      END\n ~ \
t.f:4: 99 NotBuilt GOTO10\n

# names and types come last, in order of lines, one refusal a statement, and a real name once
      PROGRAM T\n\
      x = 1\n\
C\n\
      i = mod(x, t)\n\
      y = y + x + i\n\
      j = k + t\n\
      x = k\n\
      END\n ~ \
t.f:2: 14 RealType X\n\
t.f:4: 15 Redeclared T\n\
t.f:5: 14 RealType Y\n\
t.f:6: 15 Redeclared T\n

# a header that isn't first, and not what isn't converted yet
      x = 1\n\
      PROGRAM T\n\
C\n\
      go to 10\n\
      i = t\n\
      END\n ~ \
t.f:2: 11 StatementOrder PROGRAM\n

# order, nesting, labels and units come with the statements by themselves, in order of lines, and before what isn't converted yet
      SUBROUTINE S(A)\n\
      DO 10 I = 1, 3\n\
      X = 1.5\n\
      INTEGER K\n\
      I == 1\n\
      ELSE\n\
      END\n\
      I = 2147483648\n\
      PAUSE\n\
      \32{I} = 1\n\
      GO TO 10\n ~ \
t.f:2: 12 BadNesting 10\n\
t.f:3: 8 Unsupported CONSTANT\n\
t.f:4: 11 StatementOrder INTEGER\n\
t.f:5: 7 NotAStatement I==1\n\
t.f:6: 12 BadNesting ELSE\n\
t.f:8: 9 ConstantRange 2147483648\n\
t.f:9: 8 Unsupported PAUSE\n\
t.f:10: 10 NameTooLong \31{I}\n\
t.f:11: 13 MissingEnd MAIN\n

# kept text as it stands
      PROGRAM T\n\
      I = 'a b'\n\
   10 FORMAT(3Ha b)\n\
      END\n ~ \
t.f:2: 99 NotBuilt I='a b'\n\
t.f:3: 99 NotBuilt FORMAT(3Ha b\n

# statements that aren't converted yet
      PROGRAM T\n\
      INTEGER A(10)\n\
      DO 10 I = 1, 10\n\
   10 A(I) = I\n\
      IF (A(1) .EQ. 1) STOP\n\
      END\n ~ \
t.f:2: 99 NotBuilt INTEGERA(10)\n\
t.f:3: 99 NotBuilt DO10I=1,10\n\
t.f:4: 99 NotBuilt A(I)=I\n\
t.f:5: 99 NotBuilt IF(A(1).EQ.1\n

# statements that aren't accepted, and not those that aren't converted yet
      PROGRAM T\n      REAL X\n      END\n ~ t.f:2: 8 Unsupported REAL\n

      PROGRAM T\n\
      INTEGER A(10)\n\
      REAL X\n\
      DO 10 I = 1, 10\n\
   10 A(I) = I\n\
      WRITE (6, 20) (A(I), I=1,10)\n\
   20 FORMAT (1X, 10I5)\n\
      X = 1.5\n\
      GO TO 99999999\n\
      \32{I} = 3\n\
      I = 12345678901\n\
      END\n ~ \
t.f:3: 8 Unsupported REAL\n\
t.f:8: 8 Unsupported CONSTANT\n\
t.f:9: 7 NotAStatement GOTO99999999\n\
t.f:10: 10 NameTooLong \31{I}\n\
t.f:11: 9 ConstantRange 12345678901\n

# one refusal for a statement, of the lowest number, and of these the first
      PROGRAM T\n\
      \32{I} = 2147483648 + 1.5\n\
      \32{I} = 2147483648\n\
      CALL S(*10, 1.5)\n\
      IF (I .EQ. 2147483648) PAUSE\n\
      STOP 123456\n\
      END\n ~ \
t.f:2: 8 Unsupported CONSTANT\n\
t.f:3: 9 ConstantRange 2147483648\n\
t.f:4: 8 Unsupported RETURN\n\
t.f:5: 8 Unsupported PAUSE\n\
t.f:6: 7 NotAStatement STOP123456\n

# at the initial line, with a label and without
      PROGRAM T\n\
C\n\
      I = 1 +\n\
C\n\
     1    1.5\n\
   10 END\n\
     1 FILE 5\n\
      END\n ~ \
t.f:3: 8 Unsupported CONSTANT\n\
t.f:6: 8 Unsupported ENDFILE\n

# lower case read as upper case, and kept text as it stands
      program t\n\
      call s('a b', 'c d',)\n\
      write (6, *, rec=1)\n\
   10 format (3ha b, e10.3)\n\
   20 format (3ha b, q)\n\
      end\n ~ \
t.f:2: 7 NotAStatement CALLS('a b',\n\
t.f:3: 8 Unsupported CONTROL\n\
t.f:4: 8 Unsupported EDIT\n\
t.f:5: 7 NotAStatement FORMAT(3Ha b\n

# the last statement of a file without END, of a lower cause
      I = 1\n      PAUSE\n ~ t.f:2: 8 Unsupported PAUSE\n

# at the initial line
      PROGRAM T\n\
      CALL\n\
C\n\
     1 SUBROUTINE\n\
      END\n ~ \
t.f:2: 99 NotBuilt CALLSUBROUTI\n

# a written line of 133 characters
      PROGRAM T\n\
      I=\31{N}+\31{N}+\n\
     1\31{N}+\25{M}\n\
      END\n ~ \
t.f:2: 99 NotBuilt I=NNNNNNNNNN\n

# lines come before statements
      PROGRAM T\n\
1A    I = 1\n\
12   +  + 1\n\
C\132{x}\n\
      \x09I = 1\n\
      GO TO 10\n\
      END\n ~ \
t.f:2: 3 BadLabelField 2\n\
t.f:3: 3 BadLabelField 1\n\
t.f:4: 2 LineTooLong 133\n\
t.f:5: 6 BadCharacter 7\n

      PROGRAM T\n\
1A    I = 1\n\
12   +  + 1\n\
C\132{x}\n\
      \x09I = 1\n\
      REAL X\n\
      I == 1\n\
      END\n ~ \
t.f:2: 3 BadLabelField 2\n\
t.f:3: 3 BadLabelField 1\n\
t.f:4: 2 LineTooLong 133\n\
t.f:5: 6 BadCharacter 7\n
     1I = 1 ~ t.f:1: 4 ContinuationFirst 6\n

      PROGRAM T\n\
      I = 1\n\
\100{     1+1\n}      END\n ~ \
t.f:102: 5 TooManyContinuations 6\n

# functions of another number of arguments, of another type, and others; operators that give no integers
      PROGRAM T\n\
      I = MOD(7, 4, 2)\n\
C     ONE\n\
      I = MAX(J)\n\
      I = KUBE(J)*2\n\
*\n\
      I = (J .AND. K)\n\
      I = -(J*2)\n\
      I = ABS(J, K)\n\
      I = ABS()\n\
      I = MAX(J, A)\n\
      I = ICHAR('A')\n\
      K(1) = 2\n\
      I = MOD(J, MOD(K))\n\
      I = J .LT. K\n\
      END\n ~ \
t.f:5: 99 NotBuilt I=KUBE(J)*2\n\
t.f:7: 99 NotBuilt I=(J.AND.K)\n\
t.f:12: 99 NotBuilt I=ICHAR('A')\n\
t.f:13: 99 NotBuilt K(1)=2\n\
t.f:15: 99 NotBuilt I=J.LT.K\n
      PROGRAM T\n\
      I = MOD(7, 4, 2)\n\
C     ONE\n\
      I = MAX(J)\n\
      I = -(J*2)\n\
      I = ABS(J, K)\n\
      I = ABS()\n\
      I = MAX(J, A)\n\
      I = MOD(J, MOD(K))\n\
      END\n ~ \
t.f:2: 19 TypeMismatch MOD\n\
t.f:4: 19 TypeMismatch MAX\n\
t.f:6: 19 TypeMismatch ABS\n\
t.f:7: 19 TypeMismatch ABS\n\
t.f:8: 14 RealType A\n\
t.f:9: 19 TypeMismatch MOD\n

# a variable of the name of a function that is called, and not before what isn't converted yet
      PROGRAM T\n      MOD = 7\n      I = MOD(MOD, 2)\n      END\n ~ t.f:3: 15 Redeclared MOD\n

# a function that has the program's name
      PROGRAM MOD\n      I = 1\n      J = I - MOD(I, 2)\n      END\n ~ t.f:3: 15 Redeclared MOD\n
      PROGRAM T\n\
      I = MAX(1, 2)\n\
C\n\
      J = I*MAX\n\
      END\n ~ \
t.f:4: 15 Redeclared MAX\n
      PROGRAM T\n      MOD = MOD(7, 2)\n      STOP 1\n      END\n ~ t.f:3: 99 NotBuilt STOP1\n

# a variable of the program's name, in parentheses and as an argument
      PROGRAM MAX\n\
      I = (MAX)*2\n\
      I = ABS(MAX)\n\
      END\n ~ \
t.f:2: 15 Redeclared MAX\n\
t.f:3: 15 Redeclared MAX\n
";
