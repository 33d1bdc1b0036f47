// Units and what each of their names is, or what is refused of them.

/// The file of a unit; and its entities by first appearance: name, kind, type, and the value
/// of a constant.
pub const TYPED_UNITS: &str = r"
# integers by their first letters
      PROGRAM T\n      I = 1\n      J = I\n      N = J\n      END\n ~ I Variable integer; J Variable integer; N Variable integer
# what stands behind the first letter doesn't count
      PROGRAM T\n      N_X9 = 1\n      IX = N_X9\n      END\n ~ N_X9 Variable integer; IX Variable integer
# a declared type counts before the first letter
      PROGRAM T\n      INTEGER X\n      LOGICAL I\n      X = 1\n      I = .TRUE.\n      END\n ~ X Variable integer; I Variable logical
# lengths of the type and of a name
      PROGRAM T\n      CHARACTER*4 A, B*6\n      A = B\n      END\n ~ A Variable character*4; B Variable character*6
# characters without a length have length 1
      PROGRAM T\n      CHARACTER C\n      C = 'AB'\n      END\n ~ C Variable character*1
# a comma behind the length of the type
      PROGRAM T\n      CHARACTER*4, A, B\n      END\n ~ A Variable character*4; B Variable character*4
# an array with its own length
      PROGRAM T\n      CHARACTER W(3)*4, LINE*12\n      W(1) = LINE\n      END\n ~ W Variable character*4; LINE Variable character*12
# an array with the length of its type
      PROGRAM T\n      CHARACTER*5 W(2), C\n      END\n ~ W Variable character*5; C Variable character*5
# lengths that are expressions
      PROGRAM T\n      CHARACTER*(2 + 3) C, A*(2 * 4)\n      END\n ~ C Variable character*5; A Variable character*8
# lengths by constants
      PROGRAM T\n      PARAMETER (N = 3)\n      CHARACTER*(N * 2) C, B*(N)\n      END\n ~ N Constant integer 3; C Variable character*6; B Variable character*3
# the least and the greatest length
      PROGRAM T\n      CHARACTER*1 A, B*32767\n      END\n ~ A Variable character*1; B Variable character*32767
# dimensions before and behind a type
      PROGRAM T\n      DIMENSION K(3), A(2)\n      INTEGER A\n      LOGICAL M\n      DIMENSION M(4)\n      K(1) = A(2)\n      M(1) = .TRUE.\n      END\n ~ K Variable integer; A Variable integer; M Variable logical
# a length * of the type that no name has
      PROGRAM T\n      CHARACTER*(*) A*4\n      A = 'X'\n      END\n ~ A Variable character*4
# the length * of dummies
      SUBROUTINE S(C, D)\n      CHARACTER*(*) C, D(3)\n      C = D(1)\n      END\n ~ S Subroutine -; C Dummy character*(*); D Dummy character*(*)
# the own length * of a dummy
      SUBROUTINE S(C, B)\n      CHARACTER C*(*), B*3\n      END\n ~ S Subroutine -; C Dummy character*(*); B Dummy character*3
# the length * of a constant is that of its value
      PROGRAM T\n      CHARACTER*(*) C\n      PARAMETER (C = 'ABC')\n      END\n ~ C Constant character*3 'ABC'
# a length in a function's header
      CHARACTER*4 FUNCTION C(I)\n      C = 'AB'\n      C(1:2) = 'X'\n      END\n ~ C Function character*4; I Dummy integer
# IMPLICIT for all letters
      PROGRAM T\n      IMPLICIT INTEGER (A-Z)\n      X = ABC\n      END\n ~ X Variable integer; ABC Variable integer
# IMPLICIT with letters and ranges
      PROGRAM T\n      IMPLICIT LOGICAL (L, P-Q)\n      L = P\n      QQ = L\n      M = 1\n      END\n ~ L Variable logical; P Variable logical; QQ Variable logical; M Variable integer
# several types in one IMPLICIT
      PROGRAM T\n      IMPLICIT CHARACTER*4 (C), INTEGER (A)\n      C = 'AB'\n      A = 1\n      END\n ~ C Variable character*4; A Variable integer
# of two IMPLICITs with a letter the later counts
      PROGRAM T\n      IMPLICIT INTEGER (A-H)\n      IMPLICIT LOGICAL (H)\n      H = .TRUE.\n      G = 1\n      END\n ~ H Variable logical; G Variable integer
# the later IMPLICIT counts, though the earlier one is narrower
      PROGRAM T\n      IMPLICIT LOGICAL (H)\n      IMPLICIT INTEGER (A-H)\n      H = 1\n      END\n ~ H Variable integer
# IMPLICIT CHARACTER without a length
      PROGRAM T\n      IMPLICIT CHARACTER (C)\n      CX = 'A'\n      END\n ~ CX Variable character*1
# a declared type counts before IMPLICIT
      PROGRAM T\n      IMPLICIT LOGICAL (A-Z)\n      INTEGER I\n      I = 1\n      X = .TRUE.\n      END\n ~ I Variable integer; X Variable logical
# IMPLICIT counts for the names of the header
      FUNCTION F(X, C)\n      IMPLICIT INTEGER (F, X), CHARACTER*3 (C)\n      F = X\n      END\n ~ F Function integer; X Dummy integer; C Dummy character*3
# the length * in IMPLICIT for dummies and constants
      SUBROUTINE S(C)\n      IMPLICIT CHARACTER*(*) (C)\n      PARAMETER (CX = 'ABC')\n      C = CX\n      END\n ~ S Subroutine -; C Dummy character*(*); CX Constant character*3 'ABC'
# a wrong length in IMPLICIT that no name has
      PROGRAM T\n      IMPLICIT CHARACTER*0 (C)\n      CHARACTER*2 C\n      C = 'A'\n      END\n ~ C Variable character*2
# a wrong length in IMPLICIT doesn't touch names without type
      PROGRAM T\n      IMPLICIT CHARACTER*0 (S, E)\n      EXTERNAL E\n      CALL S(E)\n      END\n ~ E External -; S Subroutine -
# a length by a constant in IMPLICIT
      PROGRAM T\n      PARAMETER (N = 3)\n      IMPLICIT CHARACTER*(N) (C)\n      C = 'A'\n      END\n ~ N Constant integer 3; C Variable character*3
# IMPLICIT doesn't touch intrinsic functions
      PROGRAM T\n      IMPLICIT LOGICAL (A-Z)\n      INTEGER J\n      J = ABS(-1)\n      END\n ~ J Variable integer; ABS Intrinsic integer
# a name in EXTERNAL alone has no type
      PROGRAM T\n      EXTERNAL F\n      CALL S(F)\n      END\n ~ F External -; S Subroutine -
# a name in EXTERNAL and nowhere else
      PROGRAM T\n      EXTERNAL F, K\n      J = 1\n      END\n ~ F External -; K External -; J Variable integer
# names of subroutines have no type
      PROGRAM T\n      CALL X\n      CALL Y(1)\n      END\n ~ X Subroutine -; Y Subroutine -
# the name of a subroutine has no type in its own unit
      SUBROUTINE X\n      I = 1\n      END\n ~ X Subroutine -; I Variable integer
# the name of the main program has no type
      PROGRAM X\n      I = 1\n      END\n ~ I Variable integer
# the name of a BLOCK DATA has no type
      BLOCK DATA X\n      COMMON /Y/ I\n      END\n ~ I Variable integer
# names of blocks have no type, and one may be a variable's name
      PROGRAM T\n      COMMON /X/ I, /J/ K\n      SAVE /X/\n      J = I\n      END\n ~ I Variable integer; K Variable integer; J Variable integer
# the type of a function in a declaration
      FUNCTION X(I)\n      INTEGER X\n      X = I\n      END\n ~ X Function integer; I Dummy integer
# INTRINSIC names with the types of names
      PROGRAM T\n      LOGICAL LQ\n      INTRINSIC ISQ, LQ\n      END\n ~ LQ Intrinsic logical; ISQ Intrinsic integer
# a type behind the PARAMETER counts
      PROGRAM T\n      PARAMETER (X = 1, Y = .TRUE.)\n      INTEGER X\n      LOGICAL Y\n      END\n ~ X Constant integer 1; Y Constant logical .TRUE.
# IMPLICIT behind the PARAMETER counts
      PROGRAM T\n      PARAMETER (A = 1)\n      IMPLICIT INTEGER (A)\n      J = A\n      END\n ~ A Constant integer 1; J Variable integer
# an intrinsic function's name as a declared variable
      PROGRAM T\n      INTEGER ABS\n      ABS = 1\n      MOD = ABS\n      END\n ~ ABS Variable integer; MOD Variable integer
# intrinsic functions have their own types
      PROGRAM T\n      J = ABS(-1) + SIGN(1, -1) + DIM(2, 1)\n      END\n ~ J Variable integer; ABS Intrinsic integer; SIGN Intrinsic integer; DIM Intrinsic integer
# INTRINSIC names with their own types
      PROGRAM T\n      INTEGER CHAR\n      INTRINSIC LGE, CHAR, ABS\n      END\n ~ CHAR Intrinsic character*1; LGE Intrinsic logical; ABS Intrinsic integer
# dimensions in COMMON, and a type
      PROGRAM T\n      COMMON /B/ A(2), L(3)\n      INTEGER A\n      LOGICAL L\n      L(A(1)) = .TRUE.\n      END\n ~ A Variable integer; L Variable logical
# constants where values may stand
      PROGRAM T\n      PARAMETER (K = 2)\n      INTEGER A(K)\n      DATA A /K*K/\n      A(K) = K + 1\n      CALL S(K)\n      PRINT *, K\n      END\n ~ K Constant integer 2; A Variable integer; S Subroutine -
# an array in COMMON, SAVE and DATA
      PROGRAM T\n      DIMENSION K(2), M(2)\n      COMMON K\n      SAVE M\n      DATA M /2*0/\n      END\n ~ K Variable integer; M Variable integer
# EXTERNAL twice
      PROGRAM T\n      EXTERNAL K, K\n      EXTERNAL K, M\n      J = K(1)\n      END\n ~ K Function integer; M External -; J Variable integer
# EXTERNAL and a reference
      PROGRAM T\n      LOGICAL K, L\n      EXTERNAL K\n      L = K(1)\n      END\n ~ K Function logical; L Variable logical
# EXTERNAL and a call
      PROGRAM T\n      EXTERNAL K\n      CALL K\n      END\n ~ K Subroutine -
# INTRINSIC and a reference
      PROGRAM T\n      INTRINSIC MOD\n      J = MOD(7, 2)\n      CALL S(MOD)\n      END\n ~ MOD Intrinsic integer; J Variable integer; S Subroutine -
# an intrinsic function's name as an array
      PROGRAM T\n      INTEGER MAX(3)\n      J = MAX(1)\n      END\n ~ MAX Variable integer; J Variable integer
# an intrinsic function's name as a statement function
      PROGRAM T\n      MOD(I) = I\n      J = MOD(3)\n      END\n ~ MOD StmtFunction integer; J Variable integer
# an intrinsic function's name as an external function
      PROGRAM T\n      EXTERNAL MOD\n      J = MOD(3)\n      END\n ~ MOD Function integer; J Variable integer
# an intrinsic function's name as a subroutine
      PROGRAM T\n      CALL MOD(7)\n      END\n ~ MOD Subroutine -
# an intrinsic function's name alone as an argument is a variable
      PROGRAM T\n      CALL S(MOD)\n      MOD = 2\n      END\n ~ S Subroutine -; MOD Variable integer
# INTRINSIC twice
      PROGRAM T\n      INTRINSIC MOD, MOD\n      J = MOD(7, 2)\n      END\n ~ MOD Intrinsic integer; J Variable integer
# names in EXTERNAL and INTRINSIC as arguments of a subroutine and of a function
      PROGRAM T\n      EXTERNAL F\n      INTRINSIC ABS\n      CALL S(F, ABS)\n      J = K(F, ABS)\n      END\n ~ F External -; ABS Intrinsic integer; S Subroutine -; J Variable integer; K Function integer
# a function in EXTERNAL as an argument
      PROGRAM T\n      EXTERNAL K\n      J = K(1)\n      CALL S(K)\n      J = M(K)\n      END\n ~ K Function integer; J Variable integer; S Subroutine -; M Function integer
# a subroutine in EXTERNAL as an argument
      PROGRAM T\n      EXTERNAL K\n      CALL K\n      CALL S(K)\n      END\n ~ K Subroutine -; S Subroutine -
# an argument of a function without EXTERNAL is a variable
      PROGRAM T\n      J = K(M)\n      M = 1\n      END\n ~ J Variable integer; K Function integer; M Variable integer
# dummies as variables, arrays and arguments
      SUBROUTINE S(I, J, K, M, L)\n      DIMENSION K(3)\n      LOGICAL L\n      INTEGER M(J)\n      I = K(1) + M(2)\n      IF (L) READ *, K\n      CALL P(K, I)\n      DO 10 J = 1, 3\n   10 CONTINUE\n      END\n ~ S Subroutine -; I Dummy integer; J Dummy integer; K Dummy integer; M Dummy integer; L Dummy logical; P Subroutine -
# a function that refers to itself
      INTEGER FUNCTION F(I)\n      F = I\n      IF (I .GT. 1) F = I * F(I - 1)\n      END\n ~ F Function integer; I Dummy integer
# a function without dummies
      LOGICAL FUNCTION P()\n      P = .TRUE.\n      END\n ~ P Function logical
# a function's own name as a variable and as an argument
      FUNCTION N()\n      READ *, N\n      CALL S(N)\n      DO 10 N = 1, 3\n   10 CONTINUE\n      END\n ~ N Function integer; S Subroutine -
# a subroutine that calls itself
      SUBROUTINE S(I)\n      CALL S(I)\n      END\n ~ S Subroutine -; I Dummy integer
# the main program's name with a type alone
      PROGRAM T\n      INTEGER T\n      I = 1\n      END\n ~ I Variable integer
# BLOCK DATA with COMMON, types, dimensions and DATA
      BLOCK DATA\n      PARAMETER (N = 3)\n      COMMON /B/ I, A(N)\n      INTEGER A\n      CHARACTER C(2)*4\n      COMMON /D/ C\n      DATA I, A /1, 3*2/, C /2*'AB'/\n      END\n ~ N Constant integer 3; I Variable integer; A Variable integer; C Variable character*4
# a named BLOCK DATA with SAVE and IMPLICIT
      BLOCK DATA SET\n      IMPLICIT LOGICAL (P)\n      COMMON /B/ P, I\n      SAVE /B/\n      DATA P, I /.TRUE., 1/\n      END\n ~ P Variable logical; I Variable integer
# a statement function and its dummies, which are none of the unit's names
      PROGRAM T\n      INTEGER A(3)\n      JF(I, L) = I + L + A(K)\n      J = JF(1, 2)\n      END\n ~ A Variable integer; JF StmtFunction integer; K Variable integer; J Variable integer
# a dummy of a statement function that is a variable too
      PROGRAM T\n      JF(I) = I + 1\n      K = 1\n      I = JF(K)\n      END\n ~ JF StmtFunction integer; I Variable integer; K Variable integer
# a dummy of a statement function that is declared
      PROGRAM T\n      LOGICAL P, LF\n      LF(P) = .NOT. P\n      END\n ~ P Variable logical; LF StmtFunction logical
# a constant and an array as dummies of statement functions
      PROGRAM T\n      PARAMETER (N = 1)\n      INTEGER A(3)\n      JF(N, A) = N + A\n      J = JF(2, A(1))\n      END\n ~ N Constant integer 1; A Variable integer; JF StmtFunction integer; J Variable integer
# a statement function without dummies
      PROGRAM T\n      JF() = 1\n      J = JF()\n      END\n ~ JF StmtFunction integer; J Variable integer
# a statement function of characters
      PROGRAM T\n      CHARACTER*3 CF, C\n      CF(C) = C // 'A'\n      C = CF('AB')\n      END\n ~ CF StmtFunction character*3; C Variable character*3
# statement functions, intrinsic functions and others in a statement function
      PROGRAM T\n      JF(I) = I\n      KF(I) = JF(I) + MOD(I, 2) + NF(I)\n      J = KF(1)\n      END\n ~ JF StmtFunction integer; KF StmtFunction integer; MOD Intrinsic integer; NF Function integer; J Variable integer
# dummies of two statement functions are apart
      PROGRAM T\n      JF(I) = I\n      KF(I, J) = JF(J) + I\n      M = KF(1, 2)\n      END\n ~ JF StmtFunction integer; KF StmtFunction integer; M Variable integer
# arrays without subscripts where they may stand
      SUBROUTINE S(A, W)\n      INTEGER A(3), B(3)\n      CHARACTER W(*)*4\n      COMMON B\n      SAVE B\n      CALL P(A, B, W)\n      J = K(A, B)\n      READ *, A\n      WRITE (6, *) A, B\n      PRINT *, (A, B, I = 1, 2)\n      END\n ~ S Subroutine -; A Dummy integer; W Dummy character*4; B Variable integer; P Subroutine -; J Variable integer; K Function integer; I Variable integer
# an array without subscripts in DATA
      PROGRAM T\n      INTEGER A(3)\n      LOGICAL L(2)\n      DATA A /3*1/, L /.TRUE., .FALSE./\n      A(1) = 1\n      END\n ~ A Variable integer; L Variable logical
# an array with the dimension 1 that is no dummy
      PROGRAM T\n      INTEGER A(1)\n      PRINT *, A\n      END\n ~ A Variable integer
# relations of integers and of characters
      PROGRAM T\n      LOGICAL L\n      CHARACTER C, B*3\n      L = I .LT. J\n      L = C .LE. B\n      L = I .EQ. J .AND. C .NE. 'X'\n      L = C // B .GT. 'A' .OR. I + K .GE. J\n      L = .NOT. C .EQ. B .EQV. L .NEQV. I .LT. 2\n      END\n ~ L Variable logical; C Variable character*1; B Variable character*3; I Variable integer; J Variable integer; K Variable integer
# operators with right operands
      PROGRAM T\n      LOGICAL P\n      CHARACTER*6 C\n      I = -J ** 2 * K / M + 4 - (+N)\n      P = P .AND. .NOT. P .OR. P\n      C = C // 'A' // C(1:2)\n      END\n ~ P Variable logical; C Variable character*6; I Variable integer; J Variable integer; K Variable integer; M Variable integer; N Variable integer
# sides of equal types
      PROGRAM T\n      INTEGER A(2)\n      LOGICAL L\n      CHARACTER*4 C, W(2)*2\n      A(1) = A(2)\n      L = A(1) .EQ. 1\n      C(1:2) = W(1)\n      W(2)(1:1) = C\n      END\n ~ A Variable integer; L Variable logical; C Variable character*4; W Variable character*2
# subscripts and bounds that are expressions
      PROGRAM T\n      INTEGER A(4)\n      CHARACTER*4 C\n      A(A(1) + J * 2) = A(MOD(I, 2))\n      C(J:J + 1) = C(:A(1))\n      END\n ~ A Variable integer; C Variable character*4; J Variable integer; MOD Intrinsic integer; I Variable integer
# conditions and branches of right types
      PROGRAM T\n      LOGICAL L\n      IF (L .AND. J .LT. 1) GO TO 10\n      IF (J - 1) 10, 10, 20\n   10 GO TO (10, 20), J + K\n   20 CONTINUE\n      END\n ~ L Variable logical; J Variable integer; K Variable integer
# ABS
      PROGRAM T\n      J = ABS(-3) + ABS(J)\n      END\n ~ J Variable integer; ABS Intrinsic integer
# IABS
      PROGRAM T\n      J = IABS(-3)\n      END\n ~ J Variable integer; IABS Intrinsic integer
# MOD
      PROGRAM T\n      J = MOD(-7, K)\n      END\n ~ J Variable integer; MOD Intrinsic integer; K Variable integer
# SIGN
      PROGRAM T\n      J = SIGN(3, -1)\n      END\n ~ J Variable integer; SIGN Intrinsic integer
# ISIGN
      PROGRAM T\n      J = ISIGN(3, J)\n      END\n ~ J Variable integer; ISIGN Intrinsic integer
# DIM
      PROGRAM T\n      J = DIM(5, 3)\n      END\n ~ J Variable integer; DIM Intrinsic integer
# IDIM
      PROGRAM T\n      J = IDIM(5, 3)\n      END\n ~ J Variable integer; IDIM Intrinsic integer
# MAX
      PROGRAM T\n      J = MAX(1, 2) + MAX(J, 2, 3, K)\n      END\n ~ J Variable integer; MAX Intrinsic integer; K Variable integer
# MAX0
      PROGRAM T\n      J = MAX0(1, 2, 3)\n      END\n ~ J Variable integer; MAX0 Intrinsic integer
# MIN
      PROGRAM T\n      J = MIN(J, 1)\n      END\n ~ J Variable integer; MIN Intrinsic integer
# MIN0
      PROGRAM T\n      J = MIN0(1, 2, 3, 4)\n      END\n ~ J Variable integer; MIN0 Intrinsic integer
# LEN
      PROGRAM T\n      CHARACTER*4 C, W(2)\n      J = LEN(C) + LEN('AB' // C) + LEN(W(1)(2:3))\n      END\n ~ C Variable character*4; W Variable character*4; J Variable integer; LEN Intrinsic integer
# INDEX
      PROGRAM T\n      CHARACTER*4 C\n      J = INDEX(C, 'A')\n      END\n ~ C Variable character*4; J Variable integer; INDEX Intrinsic integer
# CHAR
      PROGRAM T\n      CHARACTER*2 C\n      C = CHAR(65) // CHAR(J)\n      END\n ~ C Variable character*2; CHAR Intrinsic character*1; J Variable integer
# ICHAR
      PROGRAM T\n      CHARACTER C\n      J = ICHAR('A') + ICHAR(C)\n      END\n ~ C Variable character*1; J Variable integer; ICHAR Intrinsic integer
# LGE
      PROGRAM T\n      LOGICAL L\n      L = LGE('A', 'B')\n      END\n ~ L Variable logical; LGE Intrinsic logical
# LGT
      PROGRAM T\n      LOGICAL L\n      L = LGT('A', 'BC') .OR. L\n      END\n ~ L Variable logical; LGT Intrinsic logical
# LLE
      PROGRAM T\n      LOGICAL L\n      L = .NOT. LLE('A', 'BC')\n      END\n ~ L Variable logical; LLE Intrinsic logical
# LLT
      PROGRAM T\n      IF (LLT('A', 'B')) J = 1\n      END\n ~ LLT Intrinsic logical; J Variable integer
# arguments of other functions and of subroutines may have any type and number
      PROGRAM T\n      LOGICAL L\n      J = K(1) + K(L, 'A') + K()\n      CALL S(L, 1)\n      CALL S\n      END\n ~ L Variable logical; J Variable integer; K Function integer; S Subroutine -
# a constant
      PROGRAM T\n      PARAMETER (N = 1)\n      END\n ~ N Constant integer 1
# constants with signs
      PROGRAM T\n      PARAMETER (I = -5, J = +5, K = -(-5), M = 0)\n      END\n ~ I Constant integer -5; J Constant integer 5; K Constant integer 5; M Constant integer 0
# quotients are truncated
      PROGRAM T\n      PARAMETER (I = 7 / 2, J = -7 / 2, K = (-7) / 2, M = 7 / (-2))\n      END\n ~ I Constant integer 3; J Constant integer -3; K Constant integer -3; M Constant integer -3
# powers
      PROGRAM T\n      PARAMETER (I = 2 ** 10, J = 2 ** (-1), K = 0 ** 0)\n      PARAMETER (L = (-2) ** 3, M = (-1) ** (-3), N = -2 ** 2)\n      END\n ~ I Constant integer 1024; J Constant integer 0; K Constant integer 1; L Constant integer -8; M Constant integer -1; N Constant integer -4
# grouping of operators
      PROGRAM T\n      PARAMETER (I = 2 ** 3 ** 2, J = 10 - 4 - 3, K = 2 + 3 * 4)\n      PARAMETER (L = (2 + 3) * 4, M = 100 / 10 / 5, N = 7 / 2 * 2)\n      END\n ~ I Constant integer 512; J Constant integer 3; K Constant integer 14; L Constant integer 20; M Constant integer 2; N Constant integer 6
# constants of constants
      PROGRAM T\n      PARAMETER (I = 2, J = I * 3, K = J ** I - I)\n      PARAMETER (M = K / J)\n      END\n ~ I Constant integer 2; J Constant integer 6; K Constant integer 34; M Constant integer 5
# the least and the greatest integer
      PROGRAM T\n      PARAMETER (I = 2147483647, J = -2147483647 - 1, K = (-2) ** 31)\n      END\n ~ I Constant integer 2147483647; J Constant integer -2147483648; K Constant integer -2147483648
# logical constants
      PROGRAM T\n      LOGICAL A, B, C, D\n      PARAMETER (A = .TRUE., B = .NOT. A, C = A .AND. B, D = A .OR. B)\n      END\n ~ A Constant logical .TRUE.; B Constant logical .FALSE.; C Constant logical .FALSE.; D Constant logical .TRUE.
# precedence among logical operators
      PROGRAM T\n      LOGICAL A, B, C, D\n      PARAMETER (A = .TRUE. .OR. .FALSE. .AND. .FALSE.)\n      PARAMETER (B = .TRUE. .EQV. .FALSE., C = .TRUE. .NEQV. .FALSE.)\n      PARAMETER (D = .NOT. .FALSE. .AND. .FALSE.)\n      END\n ~ A Constant logical .TRUE.; B Constant logical .FALSE.; C Constant logical .TRUE.; D Constant logical .FALSE.
# relations of constants
      PROGRAM T\n      LOGICAL A, B, C, D\n      PARAMETER (N = 3, A = N .LT. 4, B = N .GE. 4)\n      PARAMETER (C = 'AB' .EQ. 'AB  ', D = 'AB' .GT. 'B')\n      END\n ~ A Constant logical .TRUE.; B Constant logical .FALSE.; C Constant logical .TRUE.; D Constant logical .FALSE.; N Constant integer 3
# constants of characters are fitted to their lengths
      PROGRAM T\n      CHARACTER*5 A, B*2, C\n      PARAMETER (A = 'AB', B = 'ABCD', C = 'ABCDE')\n      END\n ~ A Constant character*5 'AB   '; B Constant character*2 'AB'; C Constant character*5 'ABCDE'
# concatenated constants
      PROGRAM T\n      CHARACTER*3 A, B*6\n      CHARACTER*(*) C\n      PARAMETER (A = 'XY', B = A // 'Z', C = A // B)\n      END\n ~ A Constant character*3 'XY '; B Constant character*6 'XY Z  '; C Constant character*9 'XY XY Z  '
# a constant of characters without a length
      PROGRAM T\n      CHARACTER C\n      PARAMETER (C = 'XYZ')\n      END\n ~ C Constant character*1 'X'
# a constant with a length by a constant
      PROGRAM T\n      PARAMETER (N = 2)\n      CHARACTER*(N + 1) C, D\n      PARAMETER (C = 'A', D = C // 'B')\n      END\n ~ N Constant integer 2; C Constant character*3 'A  '; D Constant character*3 'A  '
# a constant of characters typed by IMPLICIT
      PROGRAM T\n      IMPLICIT CHARACTER*3 (C)\n      PARAMETER (C = 'AB')\n      END\n ~ C Constant character*3 'AB '
# names in blocks, loops and under logical IFs
      PROGRAM T\n      LOGICAL L\n      DO 10 I = 1, N\n      IF (L) THEN\n      IF (I .LT. K) J = M\n      ELSE IF (I .EQ. J1) THEN\n      DO 20 J2 = J3, J4, J5\n   20 J6 = J7\n      ELSE\n      IF (L) CALL S(J8)\n      END IF\n   10 CONTINUE\n      END\n ~ L Variable logical; I Variable integer; N Variable integer; K Variable integer; J Variable integer; M Variable integer; J1 Variable integer; J2 Variable integer; J3 Variable integer; J4 Variable integer; J5 Variable integer; J6 Variable integer; J7 Variable integer; S Subroutine -; J8 Variable integer
# names in jumps and branches
      PROGRAM T\n      GO TO (10, 20), K\n      IF (M - N) 10, 20, 30\n   10 J = 1\n   20 I = 2\n   30 STOP\n      END\n ~ K Variable integer; M Variable integer; N Variable integer; J Variable integer; I Variable integer
# names in subscripts and bounds of substrings
      PROGRAM T\n      INTEGER A(2)\n      CHARACTER*4 C, W(2)\n      A(I) = A(J)\n      W(K)(M:N) = C(:J1)\n      END\n ~ A Variable integer; C Variable character*4; W Variable character*4; I Variable integer; J Variable integer; K Variable integer; M Variable integer; N Variable integer; J1 Variable integer
# names in dimensions
      SUBROUTINE S(A, N, B)\n      PARAMETER (M = 2)\n      INTEGER A(N, M:*), B(I)\n      COMMON I\n      B(1) = A(1, 2)\n      END\n ~ S Subroutine -; A Dummy integer; N Dummy integer; B Dummy integer; M Constant integer 2; I Variable integer
# names in lengths stand before or behind those that they are of
      PROGRAM T\n      PARAMETER (M = 2, N = 3)\n      CHARACTER*(M) A, B*(N), C(2)*(M + N)\n      END\n ~ M Constant integer 2; N Constant integer 3; A Variable character*2; B Variable character*3; C Variable character*5
# names in DATA
      PROGRAM T\n      PARAMETER (N = 2)\n      INTEGER A(4), B(2)\n      CHARACTER*4 C\n      DATA I, A(1), (A(J), J = 2, 3), B /1, 2, N*3, 2*N/\n      DATA C(1:2) /'AB'/\n      END\n ~ N Constant integer 2; A Variable integer; B Variable integer; C Variable character*4; I Variable integer; J Variable integer
# DATA behind executable statements
      PROGRAM T\n      I = 1\n      DATA J /2/\n      K = I\n      END\n ~ I Variable integer; J Variable integer; K Variable integer
# names in SAVE alone
      PROGRAM T\n      INTEGER A(2)\n      SAVE I, A, /B/\n      COMMON /B/ J\n      END\n ~ A Variable integer; I Variable integer; J Variable integer
# SAVE without names, FORMAT and labels
      PROGRAM T\n      SAVE\n   10 FORMAT (I5)\n   20 PRINT 10, I\n      END\n ~ I Variable integer
# a subroutine with dummies of all sorts
      SUBROUTINE S(I, A, C, L, B)\n      INTEGER A(*)\n      CHARACTER*(*) C\n      LOGICAL L, B(I)\n      A(I) = I\n      B(1) = L .AND. C .EQ. 'A'\n      CALL P(A, B, C(1:2))\n      END\n ~ S Subroutine -; I Dummy integer; A Dummy integer; C Dummy character*(*); L Dummy logical; B Dummy logical; P Subroutine -
# a subroutine without dummies
      SUBROUTINE S()\n      RETURN\n      END\n ~ S Subroutine -
# a function that is typed by its first letter
      FUNCTION NF(I, J)\n      NF = I + J\n      RETURN\n      END\n ~ NF Function integer; I Dummy integer; J Dummy integer
# a dummy that is used nowhere
      INTEGER FUNCTION F(I, J)\n      F = 1\n      END\n ~ F Function integer; I Dummy integer; J Dummy integer
# READ, WRITE and PRINT
      PROGRAM T\n      CHARACTER*8 C\n      READ (5, 900, IOSTAT=K, ERR=10, END=10) I, C\n      READ 900, J\n      READ *, M\n   10 WRITE (6, *) N, C // 'A'\n      PRINT 900, I1 + I2\n  900 FORMAT (I5, A8)\n      END\n ~ C Variable character*8; K Variable integer; I Variable integer; J Variable integer; M Variable integer; N Variable integer; I1 Variable integer; I2 Variable integer
# implied DO lists
      PROGRAM T\n      INTEGER A(3), B(2, 3)\n      READ (5, *) N, (A(I), I = 1, N)\n      WRITE (6, *) ((B(J, K), J = 1, 2), A(K), K = 1, M, L)\n      PRINT *, (J1 * 2, J1 = 1, 3)\n      END\n ~ A Variable integer; B Variable integer; N Variable integer; I Variable integer; J Variable integer; K Variable integer; M Variable integer; L Variable integer; J1 Variable integer
# units that are expressions, and specifiers with keywords
      PROGRAM T\n      READ (UNIT=I + 1, FMT=*, IOSTAT=K) J\n      WRITE (FMT=*, UNIT=M) N\n      WRITE (*, *) J\n      READ (*, *) J\n      END\n ~ I Variable integer; K Variable integer; J Variable integer; M Variable integer; N Variable integer
# OPEN, CLOSE and REWIND
      PROGRAM T\n      CHARACTER*8 C\n      OPEN (UNIT=I, FILE=C, STATUS='OLD', IOSTAT=K, ERR=10)\n      OPEN (7, FILE=C // '.F')\n      CLOSE (J, IOSTAT=M)\n      REWIND N\n      REWIND (UNIT=I1, IOSTAT=I2)\n   10 CONTINUE\n      END\n ~ C Variable character*8; I Variable integer; K Variable integer; J Variable integer; M Variable integer; N Variable integer; I1 Variable integer; I2 Variable integer
# specifiers in another order: names stand in the order of the text
      PROGRAM T\n      OPEN (IOSTAT=K, STATUS='OLD', UNIT=I)\n      READ (IOSTAT=M, FMT=*, UNIT=N) J\n      END\n ~ I Variable integer; K Variable integer; N Variable integer; M Variable integer; J Variable integer
# IOSTAT before FILE: names stand in the order of the text
      PROGRAM T\n      IMPLICIT CHARACTER*8 (F)\n      OPEN (7, IOSTAT=K, FILE=FN)\n      END\n ~ FN Variable character*8; K Variable integer
# internal files with formats
      PROGRAM T\n      CHARACTER*8 C, W(2)\n      WRITE (C, 900) I\n      READ (W(1), '(I5)') J\n      WRITE (C(1:5), 900) K\n  900 FORMAT (I5)\n      END\n ~ C Variable character*8; W Variable character*8; I Variable integer; J Variable integer; K Variable integer
# constants that are passed and written
      PROGRAM T\n      PARAMETER (N = 3)\n      CALL S(N, 'A', .TRUE.)\n      WRITE (N, *) N, 'A', .TRUE.\n      DO 10 I = N, N, N\n   10 CONTINUE\n      END\n ~ N Constant integer 3; S Subroutine -; I Variable integer
# blanks don't count
      PROGRAM T\n      INTEGER DO10I\n      DO10I=15\n      DO10I=1,5\n   10 J = I\n      END\n ~ DO10I Variable integer; I Variable integer; J Variable integer
# functions among arguments, subscripts and bounds
      PROGRAM T\n      CHARACTER*4 C\n      INTEGER A(2)\n      J = K(M(1), A(N(2)))\n      C(J:I1(J)) = C(I2():)\n      END\n ~ C Variable character*4; A Variable integer; J Variable integer; K Function integer; M Function integer; N Function integer; I1 Function integer; I2 Function integer
# functions of all types
      PROGRAM T\n      LOGICAL LF, L\n      CHARACTER*3 CF, C\n      EXTERNAL CF\n      L = LF(1) .AND. KF(1) .LT. 2\n      C = CF(1) // CF(2)\n      END\n ~ LF Function logical; L Variable logical; CF Function character*3; C Variable character*3; KF Function integer
# EXTERNAL and a type behind a reference
      PROGRAM T\n      JF(I) = K(I) + MOD(I)\n      EXTERNAL K, MOD\n      INTEGER K\n      END\n ~ JF StmtFunction integer; K Function integer; MOD Function integer
# dimensions behind a reference
      PROGRAM T\n      JF(I) = K(I)\n      DIMENSION K(3)\n      END\n ~ JF StmtFunction integer; K Variable integer
# a type, EXTERNAL and a reference
      PROGRAM T\n      INTEGER F\n      EXTERNAL F\n      J = F(1)\n      END\n ~ F Function integer; J Variable integer
# a type behind names that have it
      PROGRAM T\n      JF(X) = X + 1\n      INTEGER X\n      END\n ~ JF StmtFunction integer; X Variable integer
# a constant, arrays with it as a bound, and DATA
      PROGRAM T\n      PARAMETER (N = 6)\n      INTEGER A(N), B(2, 2)\n      DATA A(2), A(3), A(4) /2*7, -1/, B /1, 2, 3, 4/\n      A(1) = B(2, 2) ** 2\n      END\n ~ N Constant integer 6; A Variable integer; B Variable integer
# a program as one meets it
      PROGRAM STOCK\n      INTEGER QTY(100), TOTAL\n      CHARACTER*8 ITEM\n      COMMON /LOT/ QTY, N\n      IDBL(K) = 2 * K\n      N = 0\n      TOTAL = 0\n   10 READ (5, 900, END=30) ITEM, K\n  900 FORMAT (A8, I5)\n      IF (K) 10, 10, 20\n   20 N = N + 1\n      QTY(N) = IDBL(K)\n      IF (N .LT. 100) GO TO 10\n   30 DO 40 I = 1, N\n      IF (QTY(I) .EQ. 0) GO TO 40\n      TOTAL = TOTAL + QTY(I)\n   40 CONTINUE\n      WRITE (6, 910) N, TOTAL\n  910 FORMAT (1X, I5, I8)\n      END\n ~ QTY Variable integer; TOTAL Variable integer; ITEM Variable character*8; N Variable integer; IDBL StmtFunction integer; K Variable integer; I Variable integer
";

/// The file of a unit, which is file 7; and all that is refused of it: for each statement its line, and number
/// and name of the cause.
pub const REFUSED_TYPES: &str = r"
# reals stand before I and behind N
      PROGRAM T\n      H = 1\n      I = 1\n      N = 1\n      O = 1\n      END\n ~ 2: 14 H; 5: 14 O
# lengths of 0 and of 32768
      PROGRAM T\n      CHARACTER*0 A\n      CHARACTER*32768 B\n      END\n ~ 2: 22 A; 3: 22 B
# two wrong lengths of names: the first counts
      PROGRAM T\n      CHARACTER A*0, B*32768\n      END\n ~ 2: 22 A
# the first name with a wrong length
      PROGRAM T\n      CHARACTER A*4, B*32768, C*0\n      END\n ~ 2: 22 B
# a wrong length of the type is refused with the first name that has it
      PROGRAM T\n      CHARACTER*0 A*4, B, C\n      END\n ~ 2: 22 B
# lengths that are negative or fault
      PROGRAM T\n      CHARACTER*(-1) A\n      CHARACTER*(1 / 0) B\n      CHARACTER*(2147483647 + 1) C\n      END\n ~ 2: 22 A; 3: 22 B; 4: 22 C
# lengths by variables
      PROGRAM T\n      CHARACTER*(K) C\n      CHARACTER B*(2 * K)\n      END\n ~ 2: 22 C; 3: 22 B
# lengths by a function or an array element
      PROGRAM T\n      INTEGER A(2)\n      CHARACTER*(LEN('AB')) C\n      CHARACTER*(A(1)) B\n      CHARACTER*(K(1)) Q\n      END\n ~ 3: 22 C; 4: 22 B; 5: 22 Q
# lengths that are no integers
      PROGRAM T\n      LOGICAL L\n      PARAMETER (L = .TRUE.)\n      CHARACTER*(L) A\n      CHARACTER*('AB') B\n      END\n ~ 4: 22 A; 5: 22 B
# the length * of a variable
      PROGRAM T\n      CHARACTER*(*) C\n      END\n ~ 2: 22 C
# the own length * of a variable
      PROGRAM T\n      CHARACTER A*4, C*(*)\n      END\n ~ 2: 22 C
# the length * of a dummy and of a variable
      SUBROUTINE S(C)\n      CHARACTER*(*) C, B\n      END\n ~ 2: 22 B
# the length * of a function
      PROGRAM T\n      CHARACTER*(*) CF, C*2\n      C = CF(1)\n      END\n ~ 2: 22 CF
# the length * of the unit's own function
      FUNCTION CF(N)\n      CHARACTER*(*) CF\n      END\n ~ 2: 22 CF
# the length * of a statement function
      PROGRAM T\n      CHARACTER*(*) CF\n      CF(I) = 'A'\n      END\n ~ 2: 22 CF
# a length of 0 in a function's header
      CHARACTER*0 FUNCTION C(I)\n      C = 'A'\n      END\n ~ 1: 22 C
# a length of 32768 in a function's header
      CHARACTER*(32768) FUNCTION C(I)\n      C = 'A'\n      END\n ~ 1: 22 C
# a length in a function's header that isn't constant
      CHARACTER*(N) FUNCTION C(I)\n      C = 'A'\n      END\n ~ 1: 22 C
# other letters keep their types
      PROGRAM T\n      IMPLICIT INTEGER (A-C)\n      A = 1\n      D = 1\n      I = 1\n      END\n ~ 4: 14 D
# a wrong length in IMPLICIT is refused at the first statement of each name
      PROGRAM T\n      IMPLICIT CHARACTER*0 (C)\n      I = 1\n      C = 'A'\n      CC = C\n      CD = CC\n      END\n ~ 4: 22 C; 5: 22 CC; 6: 22 CD
# two names with a wrong length in IMPLICIT in one statement
      PROGRAM T\n      IMPLICIT CHARACTER*32768 (C)\n      C1 = C2\n      C2 = C1\n      END\n ~ 3: 22 C1
# the header is the first statement of a dummy
      SUBROUTINE S(C)\n      IMPLICIT CHARACTER*0 (C)\n      C = 'A'\n      END\n ~ 1: 22 C
# the length * in IMPLICIT
      SUBROUTINE S(C)\n      IMPLICIT CHARACTER*(*) (C)\n      CX = C\n      END\n ~ 3: 22 CX
# a length by a variable in IMPLICIT
      PROGRAM T\n      IMPLICIT CHARACTER*(K) (C)\n      K = 1\n      C = 'A'\n      END\n ~ 4: 22 C
# a real variable is refused once
      PROGRAM T\n      X = 1\n      X = 2\n      Y = X\n      Y = 1\n      END\n ~ 2: 14 X; 4: 14 Y
# two real names in one statement: the first counts, and the other had its first statement
      PROGRAM T\n      X = Y\n      Y = X\n      END\n ~ 2: 14 X
# a real array has no further refusal
      PROGRAM T\n      DIMENSION X(2)\n      X(1, 1) = .TRUE.\n      J = X\n      END\n ~ 2: 14 X
# the first statement may be a declaration
      PROGRAM T\n      COMMON X\n      SAVE Y\n      CHARACTER*(Z) C\n      X = Y\n      END\n ~ 2: 14 X; 3: 14 Y; 4: 14 Z
# no refusal is due to a real operand alone
      PROGRAM T\n      LOGICAL L\n      X = 1\n      J = X + 1\n      J = 1 - X\n      J = -X\n      L = X .LT. 1\n      L = X .AND. L\n      L = .NOT. X\n      J = ABS(X)\n      X = .TRUE.\n      END\n ~ 3: 14 X
# beside a real operand another may be wrong
      PROGRAM T\n      LOGICAL L\n      X = 1\n      J = X + L\n      J = L * X\n      L = J .AND. X\n      END\n ~ 3: 14 X; 4: 19 +; 5: 19 *; 6: 19 .AND.
# a real name counts before an operator in one statement, not in the next
      PROGRAM T\n      X = .TRUE. + 1\n      X = .TRUE. + 1\n      END\n ~ 2: 14 X; 3: 19 +
# a real function
      PROGRAM T\n      J = F(1)\n      J = F(2)\n      END\n ~ 2: 14 F
# a real function in EXTERNAL
      PROGRAM T\n      EXTERNAL F\n      J = F(1)\n      END\n ~ 2: 14 F
# a real function's own name
      FUNCTION X(Y)\n      Y = 1\n      X = 1\n      END\n ~ 1: 14 X
# the type of a function in its header
      INTEGER FUNCTION X(Y)\n      X = 1\n      END\n ~ 1: 14 Y
# real dummies
      SUBROUTINE S(I, X, Y)\n      INTEGER Y\n      Y = X\n      END\n ~ 1: 14 X
# a real name in INTRINSIC
      PROGRAM T\n      INTRINSIC SIN\n      END\n ~ 2: 14 SIN
# a real constant's value is taken, and no more is refused
      PROGRAM T\n      PARAMETER (X = 1)\n      PARAMETER (N = X + 1)\n      J = N\n      END\n ~ 2: 14 X
# a real statement function, and a real dummy of one
      PROGRAM T\n      F(I) = I\n      JF(X) = 1\n      END\n ~ 2: 14 F; 3: 14 X
# real names in blocks, loops and transfers
      PROGRAM T\n      LOGICAL L\n      IF (L) THEN\n      X = 1\n      ELSE IF (B .LT. 1) THEN\n      DO 10 D = 1, 3\n   10 J = D\n      END IF\n      READ *, E\n      PRINT *, (I, F = 1, 2)\n      IF (L) WRITE (6, *) G\n      END\n ~ 4: 14 X; 5: 14 B; 6: 14 D; 9: 14 E; 10: 14 F; 11: 14 G
# a real name in an implied DO of DATA
      PROGRAM T\n      INTEGER A(3)\n      DATA (A(X), X = 1, 3) /3*0/\n      END\n ~ 3: 14 X
# a real name has no second role
      PROGRAM T\n      X = 1\n      CALL X\n      END\n ~ 2: 14 X
# a real name has no second list of dimensions
      PROGRAM T\n      DIMENSION X(2), X(3)\n      END\n ~ 2: 14 X
# a name without type may get a second role
      PROGRAM T\n      CALL X\n      X = 1\n      END\n ~ 3: 15 X
# a name in EXTERNAL may get a second role
      PROGRAM T\n      EXTERNAL X\n      X = 1\n      END\n ~ 3: 15 X
# a real name counts before a name that is declared again
      PROGRAM T\n      COMMON I, I, X\n      END\n ~ 2: 14 X
# an intrinsic function's name as a real variable
      PROGRAM T\n      ABS = 1\n      SIGN = ABS\n      END\n ~ 2: 14 ABS; 3: 14 SIGN
# an intrinsic function's name in EXTERNAL is another function's
      PROGRAM T\n      EXTERNAL ABS\n      J = ABS(1)\n      END\n ~ 2: 14 ABS
# one type twice
      PROGRAM T\n      INTEGER I, I\n      END\n ~ 2: 15 I
# two types: the first counts
      PROGRAM T\n      INTEGER I\n      LOGICAL I\n      I = 1\n      I = .TRUE.\n      END\n ~ 3: 15 I; 5: 19 =
# the same type in two statements
      PROGRAM T\n      LOGICAL L\n      LOGICAL L\n      END\n ~ 3: 15 L
# two lengths
      PROGRAM T\n      CHARACTER C\n      CHARACTER*4 C\n      END\n ~ 3: 15 C
# a second type with a wrong length
      PROGRAM T\n      CHARACTER*2 C\n      CHARACTER*0 C\n      END\n ~ 3: 15 C
# a type in the header and another
      INTEGER FUNCTION F(N)\n      INTEGER F, N\n      F = N\n      END\n ~ 2: 15 F
# two lists of dimensions: the first counts
      PROGRAM T\n      DIMENSION K(2)\n      INTEGER K(2, 2)\n      K(1) = 1\n      K(1, 1) = 1\n      END\n ~ 3: 15 K; 5: 20 K
# two lists of dimensions in a type and in DIMENSION
      PROGRAM T\n      INTEGER A(2)\n      DIMENSION A(2)\n      END\n ~ 3: 15 A
# two lists of dimensions in DIMENSION and in COMMON
      PROGRAM T\n      DIMENSION K(2)\n      COMMON K(2)\n      END\n ~ 3: 15 K
# two places in one block
      PROGRAM T\n      COMMON I, I\n      END\n ~ 2: 15 I
# two places in two blocks
      PROGRAM T\n      COMMON /A/ I, /B/ I\n      END\n ~ 2: 15 I
# two places in two statements
      PROGRAM T\n      COMMON /A/ I, J\n      COMMON /B/ K, J\n      END\n ~ 3: 15 J
# a constant and dimensions: the constant stays
      PROGRAM T\n      PARAMETER (K = 1)\n      DIMENSION K(2)\n      J = K\n      END\n ~ 3: 15 K
# a constant in COMMON
      PROGRAM T\n      PARAMETER (K = 1)\n      COMMON K\n      END\n ~ 3: 15 K
# a constant in EXTERNAL
      PROGRAM T\n      PARAMETER (K = 1)\n      EXTERNAL K\n      END\n ~ 3: 15 K
# a constant in INTRINSIC
      PROGRAM T\n      PARAMETER (MOD = 1)\n      INTRINSIC MOD\n      END\n ~ 3: 15 MOD
# a constant as a statement function
      PROGRAM T\n      PARAMETER (K = 1)\n      K(I) = I\n      END\n ~ 3: 15 K
# a constant in SAVE
      PROGRAM T\n      PARAMETER (K = 1)\n      SAVE K\n      END\n ~ 3: 15 K
# a second PARAMETER of a name: the first value counts
      PROGRAM T\n      PARAMETER (K = 1)\n      PARAMETER (K = 2)\n      END\n ~ 3: 15 K
# a name twice in one PARAMETER
      PROGRAM T\n      PARAMETER (K = 1, K = 1)\n      END\n ~ 2: 15 K
# constants that are assigned, counted, read and called
      PROGRAM T\n      PARAMETER (K = 1)\n      K = 2\n      DO 10 K = 1, 2\n   10 CONTINUE\n      READ *, K\n      CALL K\n      J = K(1)\n      READ (5, *, IOSTAT=K) J\n      PRINT *, (J, K = 1, 2)\n      IF (J .EQ. 1) K = 3\n      END\n ~ 3: 15 K; 4: 15 K; 6: 15 K; 7: 15 K; 8: 15 K; 9: 15 K; 10: 15 K; 11: 15 K
# substrings of a constant
      PROGRAM T\n      CHARACTER*3 C, B\n      PARAMETER (C = 'ABC')\n      B = C(1:2)\n      C(1:1) = 'X'\n      END\n ~ 4: 15 C; 5: 15 C
# an array as a constant
      PROGRAM T\n      DIMENSION K(2)\n      PARAMETER (K = 1)\n      END\n ~ 3: 15 K
# an array in EXTERNAL
      PROGRAM T\n      DIMENSION K(2)\n      EXTERNAL K\n      END\n ~ 3: 15 K
# an array in INTRINSIC
      PROGRAM T\n      INTEGER MOD(2)\n      INTRINSIC MOD\n      END\n ~ 3: 15 MOD
# an array that is called
      PROGRAM T\n      DIMENSION K(2)\n      CALL K\n      CALL K(1)\n      END\n ~ 3: 15 K; 4: 15 K
# a COMMON variable as a constant
      PROGRAM T\n      COMMON K\n      PARAMETER (K = 1)\n      END\n ~ 3: 15 K
# a COMMON variable is no constant, though a PARAMETER follows
      PROGRAM T\n      COMMON K\n      PARAMETER (K = 2)\n      PARAMETER (M = K)\n      END\n ~ 3: 15 K; 4: 22 M
# a COMMON variable in EXTERNAL
      PROGRAM T\n      COMMON K\n      EXTERNAL K\n      END\n ~ 3: 15 K
# a COMMON variable in INTRINSIC
      PROGRAM T\n      COMMON MOD\n      INTRINSIC MOD\n      END\n ~ 3: 15 MOD
# a COMMON variable as a statement function
      PROGRAM T\n      COMMON K\n      K(I) = I\n      END\n ~ 3: 15 K
# a COMMON variable that is called or referred to as a function
      PROGRAM T\n      COMMON K, MOD\n      J = K(1)\n      CALL K\n      J = MOD(7, 2)\n      END\n ~ 3: 15 K; 4: 15 K; 5: 15 MOD
# a name in EXTERNAL as a constant
      PROGRAM T\n      EXTERNAL K\n      PARAMETER (K = 1)\n      END\n ~ 3: 15 K
# a name in EXTERNAL with dimensions: it is no array
      PROGRAM T\n      EXTERNAL K\n      DIMENSION K(3)\n      J = K(1)\n      CALL S(K)\n      END\n ~ 3: 15 K
# a name in EXTERNAL and COMMON
      PROGRAM T\n      EXTERNAL K\n      COMMON K\n      END\n ~ 3: 15 K
# a name in EXTERNAL and INTRINSIC: the first counts
      PROGRAM T\n      EXTERNAL MOD\n      INTRINSIC MOD\n      J = MOD(7)\n      END\n ~ 3: 15 MOD
# a name in INTRINSIC and EXTERNAL
      PROGRAM T\n      INTRINSIC MOD\n      EXTERNAL MOD\n      END\n ~ 3: 15 MOD
# a name in EXTERNAL as a statement function: it is none
      PROGRAM T\n      EXTERNAL K\n      K(I) = I\n      J = K(1, 2)\n      END\n ~ 3: 15 K
# a name in EXTERNAL as a variable
      PROGRAM T\n      EXTERNAL K\n      J = K\n      K = 1\n      READ *, K\n      DO 10 K = 1, 2\n   10 CONTINUE\n      PRINT *, K\n      J = ABS(K)\n      CALL S((K))\n      END\n ~ 3: 15 K; 4: 15 K; 5: 15 K; 6: 15 K; 8: 15 K; 9: 15 K; 10: 15 K
# a name in EXTERNAL in SAVE
      PROGRAM T\n      EXTERNAL K\n      SAVE K\n      END\n ~ 3: 15 K
# a substring of a name in EXTERNAL
      PROGRAM T\n      CHARACTER*4 C\n      EXTERNAL C\n      C(1:2) = 'A'\n      END\n ~ 4: 15 C
# EXTERNAL, a call and a reference
      PROGRAM T\n      EXTERNAL K\n      CALL K\n      J = K(1)\n      END\n ~ 4: 15 K
# EXTERNAL, a reference and a call
      PROGRAM T\n      EXTERNAL K\n      J = K(1)\n      CALL K\n      END\n ~ 4: 15 K
# EXTERNAL, a reference and a use as a variable
      PROGRAM T\n      EXTERNAL K\n      J = K(1)\n      J = K\n      K = 1\n      END\n ~ 4: 15 K; 5: 15 K
# a name in INTRINSIC as a constant
      PROGRAM T\n      INTRINSIC MOD\n      PARAMETER (MOD = 1)\n      END\n ~ 3: 15 MOD
# a name in INTRINSIC with dimensions
      PROGRAM T\n      INTRINSIC MOD\n      INTEGER MOD(2)\n      END\n ~ 3: 15 MOD
# a name in INTRINSIC and COMMON
      PROGRAM T\n      INTRINSIC MOD\n      COMMON MOD\n      END\n ~ 3: 15 MOD
# a name in INTRINSIC as a statement function
      PROGRAM T\n      INTRINSIC MOD\n      MOD(I) = I\n      END\n ~ 3: 15 MOD
# a name in INTRINSIC as a variable, and called
      PROGRAM T\n      INTRINSIC MOD\n      J = MOD\n      MOD = 1\n      CALL MOD\n      READ *, MOD\n      END\n ~ 3: 15 MOD; 4: 15 MOD; 5: 15 MOD; 6: 15 MOD
# a name in INTRINSIC in SAVE
      PROGRAM T\n      INTRINSIC MOD\n      SAVE MOD\n      END\n ~ 3: 15 MOD
# a statement function as a constant
      PROGRAM T\n      K(I) = I\n      PARAMETER (K = 1)\n      END\n ~ 3: 15 K
# a statement function in COMMON
      PROGRAM T\n      K(I) = I\n      COMMON K\n      END\n ~ 3: 15 K
# a statement function in EXTERNAL
      PROGRAM T\n      K(I) = I\n      EXTERNAL K\n      END\n ~ 3: 15 K
# a statement function in INTRINSIC
      PROGRAM T\n      MOD(I) = I\n      INTRINSIC MOD\n      END\n ~ 3: 15 MOD
# a statement function in SAVE
      PROGRAM T\n      K(I) = I\n      SAVE K\n      END\n ~ 3: 15 K
# a statement function as a variable, called and passed
      PROGRAM T\n      K(I) = I\n      J = K\n      K = 1\n      CALL K\n      READ *, K\n      CALL S(K)\n      PRINT *, K\n      DO 10 K = 1, 2\n   10 CONTINUE\n      END\n ~ 3: 15 K; 4: 15 K; 5: 15 K; 6: 15 K; 7: 15 K; 8: 15 K; 9: 15 K
# a second statement function of a name: the first counts
      PROGRAM T\n      K(I) = I\n      K(I, M) = I + M\n      J = K(1)\n      J = K(1, 2)\n      END\n ~ 3: 15 K; 5: 19 K
# a function as a variable
      PROGRAM T\n      J = K(1)\n      J = K\n      K = 2\n      READ *, K\n      END\n ~ 3: 15 K; 4: 15 K; 5: 15 K
# a function that is called, and one that is passed without EXTERNAL
      PROGRAM T\n      J = K(1)\n      J = M(1)\n      CALL K\n      CALL S(M)\n      J = N(M)\n      END\n ~ 4: 15 K; 5: 15 M; 6: 15 M
# a function in a statement function, and then something else
      PROGRAM T\n      JF(I) = K(I) + M(I)\n      COMMON K\n      SAVE M\n      END\n ~ 3: 15 K; 4: 15 M
# a variable as a function
      PROGRAM T\n      J = K\n      K = K(1)\n      M = 1\n      J = M(1)\n      READ *, N\n      J = N(1)\n      END\n ~ 3: 15 K; 5: 15 M; 7: 15 N
# a variable that is called
      PROGRAM T\n      J = K\n      CALL K\n      M = 1\n      CALL M(J)\n      END\n ~ 3: 15 K; 5: 15 M
# saved names and names in DATA are variables
      PROGRAM T\n      SAVE I, K\n      DATA M /1/\n      EXTERNAL I\n      J = K(1)\n      CALL M\n      END\n ~ 4: 15 I; 5: 15 K; 6: 15 M
# a saved name as a constant and as a statement function
      PROGRAM T\n      SAVE I, K\n      PARAMETER (I = 1)\n      K(J) = J\n      END\n ~ 3: 15 I; 4: 15 K
# a name in DATA in EXTERNAL and INTRINSIC
      PROGRAM T\n      DATA K /1/, MOD /2/\n      EXTERNAL K\n      INTRINSIC MOD\n      END\n ~ 3: 15 K; 4: 15 MOD
# a passed name is a variable
      PROGRAM T\n      CALL S(K)\n      J = K(1)\n      CALL K\n      END\n ~ 3: 15 K; 4: 15 K
# a subroutine as a variable and as a function
      PROGRAM T\n      CALL K\n      J = K\n      K = 1\n      J = K(1)\n      READ *, K\n      CALL S(K)\n      END\n ~ 3: 15 K; 4: 15 K; 5: 15 K; 6: 15 K; 7: 15 K
# two roles in one statement
      PROGRAM T\n      CALL J(J)\n      I = I(1)\n      K = M + M(1)\n      DO 10 N = 1, N(2)\n   10 CONTINUE\n      END\n ~ 2: 15 J; 3: 15 I; 4: 15 M; 5: 15 N
# two names with two roles in one statement: the first counts
      PROGRAM T\n      CALL M\n      CALL N\n      J = N + M\n      END\n ~ 4: 15 N
# an intrinsic function's name as a variable and a reference
      PROGRAM T\n      MOD = 1\n      J = MOD(7, 2)\n      J = ABS(-1)\n      CALL ABS\n      END\n ~ 3: 15 MOD; 5: 15 ABS
# an intrinsic function and its name as a variable
      PROGRAM T\n      J = MOD(7, 2)\n      MOD = 1\n      CALL S(MOD)\n      CALL MOD\n      END\n ~ 3: 15 MOD; 4: 15 MOD; 5: 15 MOD
# a name in EXTERNAL as an argument of an intrinsic and of a statement function, and as a subscript
      PROGRAM T\n      EXTERNAL K\n      INTEGER A(3)\n      JF(I) = I\n      J = ABS(K)\n      J = JF(K)\n      J = A(K)\n      END\n ~ 5: 15 K; 6: 15 K; 7: 15 K
# a name in INTRINSIC as an argument of an intrinsic function
      PROGRAM T\n      INTRINSIC MOD\n      J = ABS(MOD)\n      END\n ~ 3: 15 MOD
# a dummy in COMMON
      SUBROUTINE S(K)\n      COMMON K\n      END\n ~ 2: 15 K
# a dummy as a constant
      SUBROUTINE S(K)\n      PARAMETER (K = 1)\n      END\n ~ 2: 15 K
# a dummy in EXTERNAL
      SUBROUTINE S(K)\n      EXTERNAL K\n      END\n ~ 2: 15 K
# a dummy in INTRINSIC
      SUBROUTINE S(MOD)\n      INTRINSIC MOD\n      END\n ~ 2: 15 MOD
# a dummy as a statement function
      SUBROUTINE S(K)\n      K(I) = I\n      END\n ~ 2: 15 K
# a dummy that is called or referred to as a function
      SUBROUTINE S(K, M, MOD)\n      CALL K\n      J = M(1)\n      J = MOD(7, 2)\n      END\n ~ 2: 15 K; 3: 15 M; 4: 15 MOD
# a dummy twice
      SUBROUTINE S(I, J, I)\n      END\n ~ 1: 15 I
# a dummy with the name of its subroutine
      SUBROUTINE S(S)\n      END\n ~ 1: 15 S
# a dummy with the name of its function
      FUNCTION N(I, N)\n      N = 1\n      END\n ~ 1: 15 N
# a function's own name in COMMON
      FUNCTION N(I)\n      COMMON N\n      N = 1\n      END\n ~ 2: 15 N
# a function's own name as a constant
      FUNCTION N(I)\n      PARAMETER (N = 1)\n      END\n ~ 2: 15 N
# a function's own name in INTRINSIC
      FUNCTION MOD(I)\n      INTRINSIC MOD\n      MOD = 1\n      END\n ~ 2: 15 MOD
# a function's own name with dimensions: it is no array
      FUNCTION N(I)\n      DIMENSION N(3)\n      N = 1\n      J = N\n      J = N(1)\n      END\n ~ 2: 15 N
# a function's own name as a statement function, and called
      FUNCTION N(I)\n      N(K) = K\n      N = 1\n      CALL N\n      END\n ~ 2: 15 N; 4: 15 N
# a subroutine's own name in declarations
      SUBROUTINE S(I)\n      COMMON S\n      END\n ~ 2: 15 S
# a subroutine's own name as a constant
      SUBROUTINE K\n      PARAMETER (K = 1)\n      END\n ~ 2: 15 K
# a subroutine's own name with dimensions
      SUBROUTINE K\n      INTEGER K(2)\n      END\n ~ 2: 15 K
# a subroutine's own name in INTRINSIC and SAVE
      SUBROUTINE K\n      INTRINSIC K\n      SAVE K\n      END\n ~ 2: 15 K; 3: 15 K
# a subroutine's own name as a statement function
      SUBROUTINE S\n      S(I) = I\n      END\n ~ 2: 15 S
# a subroutine's own name as a variable, a function and an argument
      SUBROUTINE S\n      S = 1\n      J = S\n      J = S(1)\n      READ *, S\n      CALL P(S)\n      CALL S\n      END\n ~ 2: 15 S; 3: 15 S; 4: 15 S; 5: 15 S; 6: 15 S
# the main program's name with a type and another use
      PROGRAM T\n      INTEGER T\n      T = 1\n      J = T\n      END\n ~ 3: 15 T; 4: 15 T
# the main program's name without a type
      PROGRAM K\n      K = 1\n      J = K\n      J = K(1)\n      CALL K\n      READ *, K\n      CALL S(K)\n      PRINT *, (J, K = 1, 2)\n      END\n ~ 2: 15 K; 3: 15 K; 4: 15 K; 5: 15 K; 6: 15 K; 7: 15 K; 8: 15 K
# the main program's name in declarations
      PROGRAM K\n      DIMENSION K(2)\n      COMMON K\n      EXTERNAL K\n      INTRINSIC K\n      SAVE K\n      PARAMETER (K = 1)\n      END\n ~ 2: 15 K; 3: 15 K; 4: 15 K; 5: 15 K; 6: 15 K; 7: 15 K
# the main program's name with dimensions in a type
      PROGRAM T\n      INTEGER T(2)\n      END\n ~ 2: 15 T
# the main program's name as a statement function
      PROGRAM K\n      K(I) = I\n      END\n ~ 2: 15 K
# a BLOCK DATA's name as a variable
      BLOCK DATA B\n      COMMON /C/ B\n      END\n ~ 2: 15 B
# a BLOCK DATA's name as a constant
      BLOCK DATA K\n      PARAMETER (K = 1)\n      END\n ~ 2: 15 K
# a BLOCK DATA's real name
      BLOCK DATA B\n      COMMON /C/ X\n      END\n ~ 2: 14 X
# behind an assignment to an array element the text of a statement function is an assignment
      PROGRAM T\n      INTEGER A(3)\n      A(I) = 2\n      K(I) = 1\n      END\n ~ 4: 20 K
# a statement function that refers to itself
      PROGRAM T\n      JF(I) = JF(I) + 1\n      END\n ~ 2: 15 JF
# a statement function that refers to a later one
      PROGRAM T\n      JF(I) = KF(I)\n      KF(I) = JF(I)\n      J = JF(1) + KF(1)\n      END\n ~ 2: 15 KF
# a repeated dummy of a statement function
      PROGRAM T\n      JF(I, K, I) = I\n      END\n ~ 2: 15 I
# a statement function's own name as its dummy
      PROGRAM T\n      JF(JF) = 1\n      END\n ~ 2: 15 JF
# two wrong dummies of a statement function: the first counts
      PROGRAM T\n      JF(I, I, JF) = I\n      END\n ~ 2: 15 I
# subscripts on a left side of a name that is no array
      PROGRAM T\n      J = 1\n      K(J) = 2\n      K(1) = 2\n      END\n ~ 3: 20 K; 4: 20 K
# another number of subscripts than dimensions
      PROGRAM T\n      INTEGER A(2), B(2, 2)\n      A(1, 1) = 1\n      J = A(1, 2, 3)\n      J = B(1)\n      J = A()\n      B(1, 1, 1) = A(1)\n      READ *, A(1, 2)\n      PRINT *, B(1)\n      CALL S(A(1, 1))\n      END\n ~ 3: 20 A; 4: 20 A; 5: 20 B; 6: 20 A; 7: 20 B; 8: 20 A; 9: 20 B; 10: 20 A
# seven subscripts
      PROGRAM T\n      INTEGER A(1, 1, 1, 1, 1, 1, 2)\n      A(1, 1, 1, 1, 1, 1, 2) = 1\n      A(1, 1, 1, 1, 1, 1) = 1\n      END\n ~ 4: 20 A
# an array without subscripts as an operand
      PROGRAM T\n      INTEGER A(3), J\n      LOGICAL L(2), P\n      J = A\n      J = A + 1\n      J = 1 - A\n      J = -A\n      P = .NOT. L\n      P = A .EQ. 1\n      J = (A)\n      P = L .AND. P\n      END\n ~ 4: 20 A; 5: 20 A; 6: 20 A; 7: 20 A; 8: 20 L; 9: 20 A; 10: 20 A; 11: 20 L
# an array without subscripts is assigned
      PROGRAM T\n      INTEGER A(3), B(3)\n      A = 1\n      A = B\n      B = A(1)\n      END\n ~ 3: 20 A; 4: 20 A; 5: 20 B
# an array without subscripts as a subscript and as a bound of a substring
      PROGRAM T\n      INTEGER A(3), B(3)\n      CHARACTER*4 C\n      J = B(A)\n      B(A) = 1\n      C(A:2) = 'X'\n      C = C(1:A)\n      END\n ~ 4: 20 A; 5: 20 A; 6: 20 A; 7: 20 A
# a substring of an array without subscripts
      PROGRAM T\n      CHARACTER W(3)*4, C\n      W(1:2) = 'A'\n      C = W(2:2)\n      W(1)(1:2) = W(2)(3:)\n      END\n ~ 3: 20 W; 4: 20 W
# an array without subscripts as a condition, and in IF and GO TO
      PROGRAM T\n      LOGICAL L(2)\n      INTEGER A(2)\n      IF (L) J = 1\n      IF (L) THEN\n      ELSE IF (L) THEN\n      END IF\n      IF (A) 10, 10, 20\n   10 GO TO (20), A\n   20 CONTINUE\n      END\n ~ 4: 20 L; 5: 20 L; 6: 20 L; 8: 20 A; 9: 20 A
# an array without subscripts in a DO
      PROGRAM T\n      INTEGER A(2)\n      DO 10 A = 1, 2\n   10 CONTINUE\n      DO 20 I = A, 2\n   20 CONTINUE\n      DO 30 I = 1, A\n   30 CONTINUE\n      DO 40 I = 1, 2, A\n   40 CONTINUE\n      END\n ~ 3: 20 A; 5: 20 A; 7: 20 A; 9: 20 A
# an array without subscripts as an argument of an intrinsic and of a statement function
      PROGRAM T\n      INTEGER A(2)\n      CHARACTER W(2)\n      JF(I) = I\n      J = ABS(A)\n      J = JF(A)\n      J = LEN(W)\n      END\n ~ 5: 20 A; 6: 20 A; 7: 20 W
# an array without subscripts in a statement function
      PROGRAM T\n      INTEGER A(2)\n      JF(I) = A + I\n      END\n ~ 3: 20 A
# an array without subscripts in an expression that is an argument or an item
      PROGRAM T\n      INTEGER A(2)\n      CALL S((A))\n      CALL S(A + 1)\n      J = K((A))\n      PRINT *, (A)\n      WRITE (6, *) -A\n      END\n ~ 3: 20 A; 4: 20 A; 5: 20 A; 6: 20 A; 7: 20 A
# an array without subscripts in control lists
      PROGRAM T\n      INTEGER A(2)\n      CHARACTER W(2)*8\n      READ (A, *) I\n      READ (5, *, IOSTAT=A) I\n      WRITE (W, 900) I\n      OPEN (A)\n      OPEN (7, FILE=W)\n      OPEN (7, STATUS=W)\n      CLOSE (7, IOSTAT=A)\n      REWIND A\n  900 FORMAT (I5)\n      END\n ~ 4: 20 A; 5: 20 A; 6: 20 W; 7: 20 A; 8: 20 W; 9: 20 W; 10: 20 A; 11: 20 A
# an array without subscripts in an implied DO
      PROGRAM T\n      INTEGER A(2)\n      PRINT *, (I, A = 1, 2)\n      WRITE (6, *) (I, I = A, 2)\n      READ *, (K, I = 1, A)\n      END\n ~ 3: 20 A; 4: 20 A; 5: 20 A
# a dummy array with a last dimension * as an item
      SUBROUTINE S(A, B, C)\n      INTEGER A(*), B(2, *), C(2)\n      PRINT *, A\n      READ *, B\n      WRITE (6, *) C, (A, I = 1, 2)\n      CALL P(A, B)\n      READ *, A(1), B(1, 1)\n      END\n ~ 3: 20 A; 4: 20 B; 5: 20 A
# a dummy's last dimension written 1 is *
      SUBROUTINE S(A, B, C, D)\n      INTEGER A(1), B(2, 1), C(1:1), D(1, 2)\n      PRINT *, A\n      PRINT *, B\n      PRINT *, C\n      PRINT *, D\n      END\n ~ 3: 20 A; 4: 20 B
# two wrong lists of subscripts: the first counts
      PROGRAM T\n      INTEGER A(2), B(2, 2)\n      A(1, 1) = B(1)\n      J = B(A(1, 1))\n      J = A(B(1))\n      A = B(1)\n      END\n ~ 3: 20 A; 4: 20 B; 5: 20 B; 6: 20 A
# addition with a wrong operand
      PROGRAM T\n      LOGICAL L\n      CHARACTER C\n      J = L + 1\n      J = 1 + L\n      J = C + 1\n      J = 1 + C\n      END\n ~ 4: 19 +; 5: 19 +; 6: 19 +; 7: 19 +
# subtraction with a wrong operand
      PROGRAM T\n      LOGICAL L\n      CHARACTER C\n      J = L - 1\n      J = 1 - L\n      J = C - 1\n      J = 1 - C\n      END\n ~ 4: 19 -; 5: 19 -; 6: 19 -; 7: 19 -
# multiplication with a wrong operand
      PROGRAM T\n      LOGICAL L\n      CHARACTER C\n      J = L * 2\n      J = 2 * L\n      J = C * 2\n      J = 2 * C\n      END\n ~ 4: 19 *; 5: 19 *; 6: 19 *; 7: 19 *
# division with a wrong operand
      PROGRAM T\n      LOGICAL L\n      CHARACTER C\n      J = L / 2\n      J = 2 / L\n      J = C / 2\n      J = 2 / C\n      END\n ~ 4: 19 /; 5: 19 /; 6: 19 /; 7: 19 /
# a power with a wrong operand
      PROGRAM T\n      LOGICAL L\n      CHARACTER C\n      J = L ** 2\n      J = 2 ** L\n      J = C ** 2\n      J = 2 ** C\n      END\n ~ 4: 19 **; 5: 19 **; 6: 19 **; 7: 19 **
# arithmetic with constants of wrong types
      PROGRAM T\n      J = .TRUE. + 1\n      J = 1 - .FALSE.\n      J = 'A' * 2\n      J = 2 / 'A'\n      J = 2 ** .TRUE.\n      J = 'A' + .TRUE.\n      END\n ~ 2: 19 +; 3: 19 -; 4: 19 *; 5: 19 /; 6: 19 **; 7: 19 +
# signs of wrong operands
      PROGRAM T\n      LOGICAL L\n      CHARACTER C\n      J = -L\n      J = +L\n      J = -C\n      J = +C\n      END\n ~ 4: 19 -; 5: 19 +; 6: 19 -; 7: 19 +
# .NOT. of wrong operands
      PROGRAM T\n      LOGICAL L\n      CHARACTER C\n      L = .NOT. J\n      L = .NOT. C\n      L = .NOT. 1\n      END\n ~ 4: 19 .NOT.; 5: 19 .NOT.; 6: 19 .NOT.
# concatenation with a wrong operand
      PROGRAM T\n      LOGICAL L\n      CHARACTER C\n      C = C // J\n      C = J // C\n      C = C // L\n      C = L // C\n      END\n ~ 4: 19 //; 5: 19 //; 6: 19 //; 7: 19 //
# .AND. with a wrong operand
      PROGRAM T\n      LOGICAL L\n      CHARACTER C\n      L = J .AND. L\n      L = L .AND. J\n      L = C .AND. L\n      L = L .AND. C\n      END\n ~ 4: 19 .AND.; 5: 19 .AND.; 6: 19 .AND.; 7: 19 .AND.
# .OR. with a wrong operand
      PROGRAM T\n      LOGICAL L\n      CHARACTER C\n      L = J .OR. L\n      L = L .OR. J\n      L = C .OR. L\n      L = L .OR. C\n      END\n ~ 4: 19 .OR.; 5: 19 .OR.; 6: 19 .OR.; 7: 19 .OR.
# .EQV. with a wrong operand
      PROGRAM T\n      LOGICAL L\n      CHARACTER C\n      L = J .EQV. L\n      L = L .EQV. J\n      L = C .EQV. L\n      L = L .EQV. C\n      END\n ~ 4: 19 .EQV.; 5: 19 .EQV.; 6: 19 .EQV.; 7: 19 .EQV.
# .NEQV. with a wrong operand
      PROGRAM T\n      LOGICAL L\n      CHARACTER C\n      L = J .NEQV. L\n      L = L .NEQV. J\n      L = C .NEQV. L\n      L = L .NEQV. C\n      END\n ~ 4: 19 .NEQV.; 5: 19 .NEQV.; 6: 19 .NEQV.; 7: 19 .NEQV.
# .LT. with wrong operands
      PROGRAM T\n      LOGICAL L\n      CHARACTER C\n      L = J .LT. L\n      L = L .LT. J\n      L = J .LT. C\n      L = C .LT. J\n      L = L .LT. L\n      L = L .LT. C\n      L = C .LT. L\n      END\n ~ 4: 19 .LT.; 5: 19 .LT.; 6: 19 .LT.; 7: 19 .LT.; 8: 19 .LT.; 9: 19 .LT.; 10: 19 .LT.
# .LE. with wrong operands
      PROGRAM T\n      LOGICAL L\n      CHARACTER C\n      L = J .LE. L\n      L = L .LE. J\n      L = J .LE. C\n      L = C .LE. J\n      L = L .LE. L\n      END\n ~ 4: 19 .LE.; 5: 19 .LE.; 6: 19 .LE.; 7: 19 .LE.; 8: 19 .LE.
# .EQ. with wrong operands
      PROGRAM T\n      LOGICAL L\n      CHARACTER C\n      L = J .EQ. L\n      L = L .EQ. J\n      L = J .EQ. C\n      L = C .EQ. J\n      L = L .EQ. L\n      END\n ~ 4: 19 .EQ.; 5: 19 .EQ.; 6: 19 .EQ.; 7: 19 .EQ.; 8: 19 .EQ.
# .NE. with wrong operands
      PROGRAM T\n      LOGICAL L\n      CHARACTER C\n      L = J .NE. L\n      L = L .NE. J\n      L = J .NE. C\n      L = C .NE. J\n      L = L .NE. L\n      END\n ~ 4: 19 .NE.; 5: 19 .NE.; 6: 19 .NE.; 7: 19 .NE.; 8: 19 .NE.
# .GT. with wrong operands
      PROGRAM T\n      LOGICAL L\n      CHARACTER C\n      L = J .GT. L\n      L = L .GT. J\n      L = J .GT. C\n      L = C .GT. J\n      L = L .GT. L\n      END\n ~ 4: 19 .GT.; 5: 19 .GT.; 6: 19 .GT.; 7: 19 .GT.; 8: 19 .GT.
# .GE. with wrong operands
      PROGRAM T\n      LOGICAL L\n      CHARACTER C\n      L = J .GE. L\n      L = L .GE. J\n      L = J .GE. C\n      L = C .GE. J\n      L = L .GE. L\n      END\n ~ 4: 19 .GE.; 5: 19 .GE.; 6: 19 .GE.; 7: 19 .GE.; 8: 19 .GE.
# sides of an assignment
      PROGRAM T\n      LOGICAL L\n      CHARACTER C\n      J = L\n      J = C\n      L = J\n      L = C\n      C = J\n      C = L\n      END\n ~ 4: 19 =; 5: 19 =; 6: 19 =; 7: 19 =; 8: 19 =; 9: 19 =
# constants, elements, substrings and functions as sides of an assignment
      PROGRAM T\n      INTEGER A(2)\n      LOGICAL K, P\n      CHARACTER*4 C, W(2)\n      PARAMETER (P = .TRUE.)\n      A(1) = .FALSE.\n      W(1) = 1\n      C(1:2) = 1\n      J = C(1:1)\n      J = W(1)(1:1)\n      J = K(1)\n      J = P\n      C = ABS(1)\n      END\n ~ 6: 19 =; 7: 19 =; 8: 19 =; 9: 19 =; 10: 19 =; 11: 19 =; 12: 19 =; 13: 19 =
# results of operators as sides of an assignment
      PROGRAM T\n      LOGICAL L\n      CHARACTER C\n      L = 1 + J\n      J = J .LT. 2\n      C = .NOT. L\n      J = C // C\n      L = -J\n      END\n ~ 4: 19 =; 5: 19 =; 6: 19 =; 7: 19 =; 8: 19 =
# sides of a PARAMETER
      PROGRAM T\n      LOGICAL L\n      CHARACTER C\n      PARAMETER (N = .TRUE.)\n      PARAMETER (L = 1)\n      PARAMETER (C = 1)\n      PARAMETER (M = 'A')\n      END\n ~ 4: 19 =; 5: 19 =; 6: 19 =; 7: 19 =
# a constant of the wrong type has no value
      PROGRAM T\n      PARAMETER (N = .TRUE.)\n      PARAMETER (M = N)\n      CHARACTER*(N) C\n      END\n ~ 2: 19 =; 3: 22 M; 4: 22 C
# sides of statement functions
      PROGRAM T\n      LOGICAL LF\n      CHARACTER CF\n      JF(I) = .TRUE.\n      LF(I) = I\n      CF(I) = I\n      KF(I) = 'A'\n      END\n ~ 4: 19 =; 5: 19 =; 6: 19 =; 7: 19 =
# operands in statement functions
      PROGRAM T\n      LOGICAL P\n      JF(I) = I + .TRUE.\n      KF(P) = P + 1\n      MF(I, J) = I - J\n      END\n ~ 3: 19 +; 4: 19 +
# subscripts of wrong types
      PROGRAM T\n      INTEGER A(2), B(2, 2)\n      LOGICAL L\n      CHARACTER C\n      A(L) = 1\n      A('X') = 1\n      J = A(.TRUE.)\n      J = B(1, C)\n      J = B(L, 1)\n      CALL S(A(L))\n      READ *, A(C)\n      PRINT *, B(1, L)\n      END\n ~ 5: 19 A; 6: 19 A; 7: 19 A; 8: 19 B; 9: 19 B; 10: 19 A; 11: 19 A; 12: 19 B
# bounds of substrings of wrong types
      PROGRAM T\n      CHARACTER C*4, W(2)*4\n      LOGICAL L\n      C(L:2) = 'A'\n      C(1:'B') = 'A'\n      C = C(.TRUE.:)\n      C = C(:L)\n      C = W(1)(L:2)\n      W(2)(1:C) = C\n      END\n ~ 4: 19 C; 5: 19 C; 6: 19 C; 7: 19 C; 8: 19 W; 9: 19 W
# the subscript of an element that has a substring
      PROGRAM T\n      CHARACTER W(2)*4\n      LOGICAL L\n      W(L)(1:2) = 'A'\n      END\n ~ 4: 19 W
# conditions of wrong types
      PROGRAM T\n      CHARACTER C\n      IF (1) J = 1\n      IF (C) J = 1\n      IF (J) THEN\n      ELSE IF (C) THEN\n      ELSE IF (J + 1) THEN\n      END IF\n      END\n ~ 3: 19 IF; 4: 19 IF; 5: 19 IF; 6: 19 ELSEIF; 7: 19 ELSEIF
# expressions of wrong types in an arithmetic IF and a computed GO TO
      PROGRAM T\n      LOGICAL L\n      CHARACTER C\n      IF (L) 10, 10, 20\n   10 IF (C) 10, 20, 20\n   20 GO TO (10, 20), L\n      GO TO (10), C\n      END\n ~ 4: 19 IF; 5: 19 IF; 6: 19 GOTO; 7: 19 GOTO
# parts of a DO of logical type
      PROGRAM T\n      LOGICAL L\n      DO 10 L = 1, 3\n   10 CONTINUE\n      DO 20 I = L, 3\n   20 CONTINUE\n      DO 30 I = 1, L\n   30 CONTINUE\n      DO 40 I = 1, 3, L\n   40 CONTINUE\n      END\n ~ 3: 19 DO; 5: 19 DO; 7: 19 DO; 9: 19 DO
# parts of a DO of characters
      PROGRAM T\n      CHARACTER C\n      DO 10 C = 1, 3\n   10 CONTINUE\n      DO 20 I = 'A', 3\n   20 CONTINUE\n      DO 30 I = 1, C\n   30 CONTINUE\n      DO 40 I = 1, 3, 'A'\n   40 CONTINUE\n      END\n ~ 3: 19 DO; 5: 19 DO; 7: 19 DO; 9: 19 DO
# units of wrong types
      PROGRAM T\n      LOGICAL L\n      CHARACTER C\n      READ (L, *) I\n      WRITE (L, *) I\n      OPEN (L)\n      OPEN (UNIT=C)\n      CLOSE (L)\n      CLOSE (UNIT=C)\n      REWIND L\n      REWIND (C)\n      END\n ~ 4: 19 READ; 5: 19 WRITE; 6: 19 OPEN; 7: 19 OPEN; 8: 19 CLOSE; 9: 19 CLOSE; 10: 19 REWIND; 11: 19 REWIND
# other specifiers of wrong types
      PROGRAM T\n      LOGICAL L\n      CHARACTER C\n      READ (5, *, IOSTAT=L) I\n      WRITE (6, *, IOSTAT=C) I\n      OPEN (7, FILE=I)\n      OPEN (7, STATUS=L)\n      OPEN (7, IOSTAT=C)\n      CLOSE (7, IOSTAT=L)\n      REWIND (7, IOSTAT=C)\n      END\n ~ 4: 19 READ; 5: 19 WRITE; 6: 19 OPEN; 7: 19 OPEN; 8: 19 OPEN; 9: 19 CLOSE; 10: 19 REWIND
# parts of implied DO lists of wrong types
      PROGRAM T\n      LOGICAL L\n      CHARACTER C\n      PRINT *, (I, L = 1, 3)\n      PRINT *, (I, I = L, 3)\n      WRITE (6, *) (I, I = 1, C)\n      READ (5, *) (K, I = 1, 3, L)\n      READ *, (K, C = 1, 3)\n      END\n ~ 4: 19 PRINT; 5: 19 PRINT; 6: 19 WRITE; 7: 19 READ; 8: 19 READ
# items of wrong operands
      PROGRAM T\n      LOGICAL L\n      PRINT *, L + 1\n      WRITE (6, *) I, .NOT. I\n      READ (5, *) (K, I = 1, 2 * L)\n      CALL S(1, -L)\n      PRINT *, (I // 'A', I = 1, 2)\n      END\n ~ 3: 19 +; 4: 19 .NOT.; 5: 19 *; 6: 19 -; 7: 19 //
# operands in conditions, branches, DO and under a logical IF
      PROGRAM T\n      LOGICAL L\n      IF (L .AND. J) K = 1\n      IF (L) K = L + 1\n      IF (J .LT. L) THEN\n      ELSE IF (L .OR. J) THEN\n      END IF\n      DO 10 I = 1, -L\n   10 CONTINUE\n      IF (L * 2) 20, 20, 20\n      GO TO (20), J ** L\n      IF (L) CALL S(J // 'A')\n   20 CONTINUE\n      END\n ~ 3: 19 .AND.; 4: 19 +; 5: 19 .LT.; 6: 19 .OR.; 8: 19 -; 10: 19 *; 11: 19 **; 12: 19 //
# two wrong operators: the first counts
      PROGRAM T\n      LOGICAL L\n      J = (1 + L) * (2 - L)\n      J = L - 1 + 2 * L\n      J = 1 * 2 + L\n      L = J .AND. .NOT. K\n      L = .NOT. J .AND. K\n      L = J .LT. L .AND. K\n      L = K .AND. J .LT. L\n      J = -L + M\n      J = ABS(-L)\n      END\n ~ 3: 19 +; 4: 19 -; 5: 19 +; 6: 19 .AND.; 7: 19 .NOT.; 8: 19 .LT.; 9: 19 .AND.; 10: 19 -; 11: 19 -
# an operator between its operands
      PROGRAM T\n      LOGICAL L\n      CHARACTER C\n      J = L + ABS(L)\n      J = ABS(L) + L\n      J = A1(L) - L\n      L = C .LT. J + L\n      J = 2 ** L ** 2\n      END\n ~ 4: 19 +; 5: 19 ABS; 6: 14 A1; 7: 19 .LT.; 8: 19 **
# = between the sides, an array before its subscripts
      PROGRAM T\n      INTEGER A(2), B(2)\n      LOGICAL L\n      CHARACTER*4 C\n      A(L) = L\n      A(1) = B(L)\n      J = B(L) + A(L)\n      J = B(A(L))\n      C(L:) = 1\n      L = A(L)\n      A(L + 1) = L\n      END\n ~ 5: 19 A; 6: 19 B; 7: 19 B; 8: 19 A; 9: 19 C; 10: 19 =; 11: 19 +
# a keyword before what stands behind it
      PROGRAM T\n      LOGICAL L\n      IF (1) J = L\n      IF (J) READ (L, *) I\n      WRITE (L, *) I + L\n      DO 10 L = -L, 3\n   10 CONTINUE\n      IF (L) WRITE (L, *) I\n      IF (L) J = L\n      END\n ~ 3: 19 IF; 4: 19 IF; 5: 19 WRITE; 6: 19 DO; 8: 19 WRITE; 9: 19 =
# two causes in one statement: the lowest counts
      PROGRAM T\n      PARAMETER (N = 1)\n      INTEGER A(2)\n      LOGICAL L\n      N = .TRUE.\n      N = A\n      J = A + L\n      A(1, 1) = .TRUE.\n      A = L\n      A(L, 1) = 1\n      X = L + 1\n      Y = A(1, 1)\n      END\n ~ 5: 15 N; 6: 15 N; 7: 19 +; 8: 19 =; 9: 19 =; 10: 19 A; 11: 14 X; 12: 14 Y
# two causes in one PARAMETER: the lowest counts
      PROGRAM T\n      PARAMETER (M = 1 / 0, N = .TRUE.)\n      PARAMETER (I = 1 / 0, J = 2, J = 3)\n      PARAMETER (K = 1 / 0, X = 1)\n      END\n ~ 2: 19 =; 3: 15 J; 4: 14 X
# two causes in one declaration: the lowest counts
      PROGRAM T\n      CHARACTER*0 A, B, B\n      CHARACTER C*(K), D*(X)\n      END\n ~ 2: 15 B; 3: 14 X
# ABS with wrong arguments
      PROGRAM T\n      J = ABS(.TRUE.)\n      J = ABS('A')\n      J = ABS(1, 2)\n      J = ABS()\n      END\n ~ 2: 19 ABS; 3: 19 ABS; 4: 19 ABS; 5: 19 ABS
# IABS with wrong arguments
      PROGRAM T\n      J = IABS(.TRUE.)\n      J = IABS('A')\n      J = IABS(1, 2)\n      J = IABS()\n      END\n ~ 2: 19 IABS; 3: 19 IABS; 4: 19 IABS; 5: 19 IABS
# MOD with wrong arguments
      PROGRAM T\n      J = MOD(.TRUE., 2)\n      J = MOD(7, 'A')\n      J = MOD(7)\n      J = MOD(7, 2, 1)\n      J = MOD()\n      END\n ~ 2: 19 MOD; 3: 19 MOD; 4: 19 MOD; 5: 19 MOD; 6: 19 MOD
# SIGN with wrong arguments
      PROGRAM T\n      J = SIGN('A', 1)\n      J = SIGN(1, .TRUE.)\n      J = SIGN(1)\n      J = SIGN(1, 2, 3)\n      END\n ~ 2: 19 SIGN; 3: 19 SIGN; 4: 19 SIGN; 5: 19 SIGN
# ISIGN with wrong arguments
      PROGRAM T\n      J = ISIGN('A', 1)\n      J = ISIGN(1, .TRUE.)\n      J = ISIGN(1)\n      J = ISIGN(1, 2, 3)\n      END\n ~ 2: 19 ISIGN; 3: 19 ISIGN; 4: 19 ISIGN; 5: 19 ISIGN
# DIM with wrong arguments
      PROGRAM T\n      J = DIM(.TRUE., 1)\n      J = DIM(1, 'A')\n      J = DIM(1)\n      J = DIM(1, 2, 3)\n      END\n ~ 2: 19 DIM; 3: 19 DIM; 4: 19 DIM; 5: 19 DIM
# IDIM with wrong arguments
      PROGRAM T\n      J = IDIM(.TRUE., 1)\n      J = IDIM(1, 'A')\n      J = IDIM(1)\n      J = IDIM(1, 2, 3)\n      END\n ~ 2: 19 IDIM; 3: 19 IDIM; 4: 19 IDIM; 5: 19 IDIM
# MAX with wrong arguments
      PROGRAM T\n      J = MAX(.TRUE., 1)\n      J = MAX(1, 2, 'A')\n      J = MAX(1)\n      J = MAX()\n      END\n ~ 2: 19 MAX; 3: 19 MAX; 4: 19 MAX; 5: 19 MAX
# MAX0 with wrong arguments
      PROGRAM T\n      J = MAX0(1, .TRUE.)\n      J = MAX0('A', 'B')\n      J = MAX0(1)\n      END\n ~ 2: 19 MAX0; 3: 19 MAX0; 4: 19 MAX0
# MIN with wrong arguments
      PROGRAM T\n      J = MIN(.TRUE., .FALSE.)\n      J = MIN(1, 'A')\n      J = MIN(1)\n      END\n ~ 2: 19 MIN; 3: 19 MIN; 4: 19 MIN
# MIN0 with wrong arguments
      PROGRAM T\n      J = MIN0(1, 2, .TRUE.)\n      J = MIN0('A', 1)\n      J = MIN0(1)\n      END\n ~ 2: 19 MIN0; 3: 19 MIN0; 4: 19 MIN0
# LEN with wrong arguments
      PROGRAM T\n      J = LEN(1)\n      J = LEN(.TRUE.)\n      J = LEN('A', 'B')\n      J = LEN()\n      END\n ~ 2: 19 LEN; 3: 19 LEN; 4: 19 LEN; 5: 19 LEN
# INDEX with wrong arguments
      PROGRAM T\n      J = INDEX(1, 'A')\n      J = INDEX('A', 1)\n      J = INDEX('A')\n      J = INDEX('A', 'B', 'C')\n      END\n ~ 2: 19 INDEX; 3: 19 INDEX; 4: 19 INDEX; 5: 19 INDEX
# CHAR with wrong arguments
      PROGRAM T\n      CHARACTER C\n      C = CHAR('A')\n      C = CHAR(.TRUE.)\n      C = CHAR(1, 2)\n      C = CHAR()\n      END\n ~ 3: 19 CHAR; 4: 19 CHAR; 5: 19 CHAR; 6: 19 CHAR
# ICHAR with wrong arguments
      PROGRAM T\n      J = ICHAR(1)\n      J = ICHAR(.TRUE.)\n      J = ICHAR('A', 'B')\n      END\n ~ 2: 19 ICHAR; 3: 19 ICHAR; 4: 19 ICHAR
# LGE with wrong arguments
      PROGRAM T\n      LOGICAL L\n      L = LGE(1, 2)\n      L = LGE('A', 1)\n      L = LGE(.TRUE., 'A')\n      L = LGE('A')\n      L = LGE('A', 'B', 'C')\n      END\n ~ 3: 19 LGE; 4: 19 LGE; 5: 19 LGE; 6: 19 LGE; 7: 19 LGE
# LGT with wrong arguments
      PROGRAM T\n      LOGICAL L\n      L = LGT(1, 'A')\n      L = LGT('A', .TRUE.)\n      L = LGT('A')\n      L = LGT('A', 'B', 'C')\n      END\n ~ 3: 19 LGT; 4: 19 LGT; 5: 19 LGT; 6: 19 LGT
# LLE with wrong arguments
      PROGRAM T\n      LOGICAL L\n      L = LLE(1, 'A')\n      L = LLE('A', .TRUE.)\n      L = LLE('A')\n      L = LLE('A', 'B', 'C')\n      END\n ~ 3: 19 LLE; 4: 19 LLE; 5: 19 LLE; 6: 19 LLE
# LLT with wrong arguments
      PROGRAM T\n      LOGICAL L\n      L = LLT(1, 'A')\n      L = LLT('A', .TRUE.)\n      L = LLT('A')\n      L = LLT('A', 'B', 'C')\n      END\n ~ 3: 19 LLT; 4: 19 LLT; 5: 19 LLT; 6: 19 LLT
# results of intrinsic functions as operands and sides
      PROGRAM T\n      LOGICAL L\n      CHARACTER C\n      J = LGE('A', 'B')\n      L = ABS(1)\n      C = ICHAR('A')\n      J = CHAR(1)\n      J = LGE('A', 'B') + 1\n      L = ABS(1) .AND. L\n      J = ABS(CHAR(1))\n      IF (ABS(1)) J = 1\n      END\n ~ 4: 19 =; 5: 19 =; 6: 19 =; 7: 19 =; 8: 19 +; 9: 19 .AND.; 10: 19 ABS; 11: 19 IF
# two wrong intrinsic functions: the first counts
      PROGRAM T\n      J = ABS(.TRUE.) + MOD(1)\n      J = MOD(ABS('A'), 2)\n      J = MOD(ABS('A'), 2, 1)\n      END\n ~ 2: 19 ABS; 3: 19 ABS; 4: 19 MOD
# statement functions with wrong arguments
      PROGRAM T\n      LOGICAL P\n      CHARACTER C\n      JF(I) = I\n      KF(I, P, C) = I\n      MF() = 1\n      J = JF(.TRUE.)\n      J = JF('A')\n      J = JF(1, 2)\n      J = JF()\n      J = KF(1, .TRUE., 'A')\n      J = KF(1, 2, 'A')\n      J = KF(1, .TRUE., 1)\n      J = KF(1, .TRUE.)\n      J = MF(1)\n      J = MF()\n      END\n ~ 7: 19 JF; 8: 19 JF; 9: 19 JF; 10: 19 JF; 12: 19 KF; 13: 19 KF; 14: 19 KF; 15: 19 MF
# results of functions
      PROGRAM T\n      LOGICAL LF\n      CHARACTER*2 CF\n      J = LF(1)\n      J = CF(1)\n      J = CF(1) + 1\n      IF (KF(1)) J = 1\n      END\n ~ 4: 19 =; 5: 19 =; 6: 19 +; 7: 19 IF
# a constant is refused where its CHARACTER declaration follows
      PROGRAM T\n      PARAMETER (C = 'AB')\n      CHARACTER*2 C\n      END\n ~ 2: 22 C
# a constant is refused where its IMPLICIT CHARACTER follows
      PROGRAM T\n      PARAMETER (C = 'AB')\n      IMPLICIT CHARACTER*2 (C)\n      END\n ~ 2: 22 C
# a constant without value by a later CHARACTER makes another one without
      PROGRAM T\n      CHARACTER*(*) D\n      PARAMETER (C = 'AB')\n      PARAMETER (D = C)\n      CHARACTER*2 C\n      END\n ~ 3: 22 C; 4: 22 D
# a constant with a length that isn't known
      PROGRAM T\n      CHARACTER*(K) C\n      PARAMETER (C = 'A')\n      END\n ~ 2: 22 C; 3: 22 C
# overflow in constants
      PROGRAM T\n      PARAMETER (I = 2147483647 + 1)\n      PARAMETER (J = -2147483647 - 2)\n      PARAMETER (K = 65536 * 32768)\n      PARAMETER (L = 2 ** 31)\n      PARAMETER (M = -(-2147483647 - 1))\n      PARAMETER (N = (-2147483647 - 1) / (-1))\n      END\n ~ 2: 22 I; 3: 22 J; 4: 22 K; 5: 22 L; 6: 22 M; 7: 22 N
# overflow on the way
      PROGRAM T\n      PARAMETER (I = 2147483647 + 1 - 1)\n      PARAMETER (J = 46341 * 46341 / 46341)\n      PARAMETER (K = 46340 * 46340)\n      END\n ~ 2: 22 I; 3: 22 J
# zero divisors in constants
      PROGRAM T\n      PARAMETER (I = 1 / 0)\n      PARAMETER (J = 0 / 0)\n      PARAMETER (K = 0 ** (-1))\n      PARAMETER (L = 5 / (3 - 3))\n      PARAMETER (N = 0 / 5)\n      END\n ~ 2: 22 I; 3: 22 J; 4: 22 K; 5: 22 L
# all operands of a constant are evaluated
      PROGRAM T\n      LOGICAL A, B\n      PARAMETER (A = .FALSE. .AND. (1 / 0) .EQ. 1)\n      PARAMETER (B = .TRUE. .OR. (2 ** 31) .EQ. 1)\n      END\n ~ 3: 22 A; 4: 22 B
# a constant without value makes later ones without
      PROGRAM T\n      PARAMETER (I = 1 / 0)\n      PARAMETER (J = I + 1, K = J)\n      PARAMETER (M = K * 0)\n      CHARACTER*(M) C\n      END\n ~ 2: 22 I; 3: 22 J; 4: 22 M; 5: 22 C
# a constant without value in executable statements
      PROGRAM T\n      PARAMETER (I = 1 / 0)\n      J = I\n      DO 10 K = I, 3\n   10 CONTINUE\n      END\n ~ 2: 22 I
# constants by variables, functions and elements
      PROGRAM T\n      INTEGER A(2)\n      PARAMETER (I = J)\n      PARAMETER (K = A(1))\n      PARAMETER (L = M(1))\n      PARAMETER (N = ABS(-1))\n      PARAMETER (I1 = I1 + 1)\n      END\n ~ 3: 22 I; 4: 22 K; 5: 22 L; 6: 22 N; 7: 22 I1
# constants by functions of characters
      PROGRAM T\n      LOGICAL P\n      CHARACTER*4 C, B\n      PARAMETER (N = LEN('AB'))\n      PARAMETER (C = CHAR(65))\n      PARAMETER (P = LGE('A', 'B'))\n      PARAMETER (B = C // 'A')\n      END\n ~ 4: 22 N; 5: 22 C; 6: 22 P; 7: 22 B
# two wrong constants in one statement: the first counts
      PROGRAM T\n      PARAMETER (I = 1, J = I / 0, K = J)\n      END\n ~ 2: 22 J
# wrong operands in constants
      PROGRAM T\n      LOGICAL L\n      CHARACTER*4 C\n      PARAMETER (N = 1 + .TRUE.)\n      PARAMETER (L = .TRUE. .AND. 1)\n      PARAMETER (C = 'A' // 1)\n      PARAMETER (M = N)\n      PARAMETER (K = ABS(.TRUE.))\n      END\n ~ 4: 19 +; 5: 19 .AND.; 6: 19 //; 7: 22 M; 8: 19 ABS
# a dummy and a function are no constants
      FUNCTION N(I)\n      PARAMETER (J = I)\n      PARAMETER (K = N)\n      N = 1\n      END\n ~ 2: 22 J; 3: 22 K
# refusals in blocks, loops and under logical IFs
      PROGRAM T\n      LOGICAL L\n      DO 10 I = 1, 3\n      IF (L) THEN\n      IF (L) J = L\n      ELSE IF (J) THEN\n      J = .TRUE.\n      ELSE\n      IF (J) L = 1\n      END IF\n   10 X = 1\n      END\n ~ 5: 19 =; 6: 19 ELSEIF; 7: 19 =; 9: 19 IF; 11: 14 X
# two roles in blocks and loops
      PROGRAM T\n      PARAMETER (K = 1)\n      LOGICAL L\n      DO 10 I = 1, 3\n      DO 10 J = 1, 3\n      IF (L) K = 2\n      IF (L) THEN\n      CALL M\n      ELSE\n      N = M\n      END IF\n   10 CALL I\n      END\n ~ 6: 15 K; 10: 15 M; 12: 15 I
# an array in blocks and loops
      PROGRAM T\n      INTEGER A(2)\n      DO 10 I = 1, 2\n      IF (A(I) .LT. 1) THEN\n      A(I, I) = 1\n      ELSE IF (A .LT. 1) THEN\n      A(I) = 2\n      END IF\n   10 IF (I .EQ. 1) J = A\n      END\n ~ 5: 20 A; 6: 20 A; 9: 20 A
# types of dummies
      INTEGER FUNCTION F(X, Y)\n      LOGICAL X\n      INTEGER Y(2)\n      F = X\n      F = Y\n      IF (X) F = Y(1)\n      IF (Y(1)) F = 1\n      END\n ~ 4: 19 =; 5: 20 Y; 7: 19 IF
# a function of characters with wrong types
      CHARACTER*2 FUNCTION CF(I)\n      CF = I\n      CF(I:2) = 'A'\n      I = CF\n      CF(CF:) = 'A'\n      END\n ~ 2: 19 =; 4: 19 =; 5: 19 CF
# IOSTAT before UNIT: the first counts
      PROGRAM T\n      OPEN (IOSTAT=X, UNIT=Y)\n      END\n ~ 2: 14 Y
# IOSTAT needs an integer variable
      PROGRAM T\n      LOGICAL L\n      EXTERNAL E\n      READ (5, *, IOSTAT=E) I\n      READ (5, *, IOSTAT=X) I\n      READ (5, *, IOSTAT=L) I\n      CALL S\n      WRITE (6, *, IOSTAT=S) I\n      END\n ~ 4: 15 E; 5: 14 X; 6: 19 READ; 8: 15 S
# list-directed internal files
      PROGRAM T\n      CHARACTER*8 C, W(2)\n      WRITE (C, *) I\n      READ (W(1), *) J\n      READ (FMT=*, UNIT=C) J\n      IF (I .EQ. 1) WRITE (C, *) I\n      END\n ~ 3: 8 CONTROL; 4: 8 CONTROL; 5: 8 CONTROL; 6: 8 CONTROL
# a list-directed internal file counts before other causes
      PROGRAM T\n      CHARACTER*8 C, W(2)\n      LOGICAL L\n      WRITE (C, *) I + L\n      READ (W(L), *) J\n      WRITE (C, *) X\n      WRITE (6, *) X\n      END\n ~ 4: 8 CONTROL; 5: 8 CONTROL; 6: 8 CONTROL
# a dummy as a list-directed internal file
      SUBROUTINE S(C, N)\n      CHARACTER*(*) C\n      WRITE (C, *) N\n      WRITE (N, *) C\n      END\n ~ 3: 8 CONTROL
# a real name in the length of IMPLICIT
      PROGRAM T\n      IMPLICIT CHARACTER*(X) (C)\n      I = 1\n      END\n ~ 2: 14 X
# a wrong length in IMPLICIT for the unit's own function
      FUNCTION C(I)\n      IMPLICIT CHARACTER*0 (C)\n      C = 'A'\n      END\n ~ 1: 22 C
# the length * in IMPLICIT for the unit's own function
      FUNCTION C(I)\n      IMPLICIT CHARACTER*(*) (C)\n      C = 'A'\n      END\n ~ 1: 22 C
# a wrong length in IMPLICIT for functions
      PROGRAM T\n      IMPLICIT CHARACTER*0 (C)\n      CHARACTER B\n      CF(I) = 'A'\n      B = CG(1)\n      END\n ~ 4: 22 CF; 5: 22 CG
# a wrong length in IMPLICIT for a constant
      PROGRAM T\n      IMPLICIT CHARACTER*0 (C)\n      PARAMETER (C = 'A')\n      END\n ~ 3: 22 C
# types behind the PARAMETER that its value doesn't have
      PROGRAM T\n      PARAMETER (N = 1)\n      PARAMETER (M = 1)\n      LOGICAL N\n      CHARACTER M\n      END\n ~ 2: 19 =; 3: 19 =
# the first type counts for a constant
      PROGRAM T\n      INTEGER X\n      LOGICAL X\n      PARAMETER (X = 1)\n      J = X\n      END\n ~ 3: 15 X
# a constant with dimensions that is used in another constant
      PROGRAM T\n      PARAMETER (K = 1)\n      DIMENSION K(2)\n      PARAMETER (M = K + 1)\n      J = M\n      END\n ~ 3: 15 K
# an array that a later statement makes a dummy of a statement function
      PROGRAM T\n      INTEGER A(2)\n      JF(A) = A\n      J = A\n      END\n ~ 4: 20 A
# a real function's name in several statements
      PROGRAM T\n      INTEGER A(2)\n      A(F(1)) = 1\n      J = F(2, 3)\n      CALL S(F(1))\n      END\n ~ 3: 14 F
# a real name where another type is needed
      PROGRAM T\n      INTEGER A(2)\n      CHARACTER*4 C\n      JF(I) = I\n      X = 1\n      A(X) = X\n      C(X:X) = X\n      IF (X) J = JF(X)\n      IF (X) THEN\n      ELSE IF (X) THEN\n      END IF\n      DO 10 I = X, X, X\n   10 CONTINUE\n      WRITE (X, *) MAX(X, 1)\n      OPEN (X, FILE=X, IOSTAT=X)\n      GO TO (20), X\n   20 C = X // C\n      END\n ~ 5: 14 X
# names of procedures in DATA
      PROGRAM T\n      EXTERNAL K\n      INTRINSIC MOD\n      M(I) = I\n      DATA K /1/\n      DATA MOD /1/\n      DATA M /1/\n      END\n ~ 5: 15 K; 6: 15 MOD; 7: 15 M
# a subroutine and a function in a later DATA
      PROGRAM T\n      CALL K\n      J = M(1)\n      DATA K /1/, M /2/\n      DATA M /2/\n      END\n ~ 4: 15 K; 5: 15 M
# a subroutine's own name in DATA
      SUBROUTINE K\n      DATA K /1/\n      END\n ~ 2: 15 K
# the main program's name in DATA and as a DO variable
      PROGRAM K\n      DATA K /1/\n      DO 10 K = 1, 2\n   10 CONTINUE\n      END\n ~ 2: 15 K; 3: 15 K
# two subscripts of an array of one dimension
      PROGRAM T\n      INTEGER A(2)\n      A(1, 1) = 1\n      END\n ~ 3: 20 A
# a constant whose value has a zero divisor
      PROGRAM T\n      PARAMETER (N = 1 / 0)\n      END\n ~ 2: 22 N
";
