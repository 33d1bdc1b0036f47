// The units of files.

/// The file, which is file 7; all that is refused of it: for each statement its line, and number and name of the cause.
pub const REFUSED_UNITS: &str = r#"
# a header that isn't first: behind an executable statement, a header, a declaration
      I = 1\n      PROGRAM T\n      END\n ~ 2: 11 PROGRAM
      PROGRAM T\n      PROGRAM U\n      END\n ~ 2: 11 PROGRAM
      INTEGER K\n      INTEGER FUNCTION F(A)\n      END\n ~ 2: 11 FUNCTION
      SUBROUTINE S\n      CHARACTER*8 FUNCTION F(A)\n      RETURN\n      END\n ~ 2: 11 FUNCTION

# it changes no kind: a main program stays one, a subroutine too
      PROGRAM T\n      SUBROUTINE S\n      RETURN\n      END\n ~ 2: 11 SUBROUTINE; 3: 11 RETURN
      SUBROUTINE S\n      BLOCK DATA\n      A = 1\n      END\n ~ 2: 11 BLOCKDATA
      SUBROUTINE S\n      PROGRAM T\n      RETURN\n      END\n ~ 2: 11 PROGRAM

# it begins no unit: an open DO goes on, and the END behind it ends the one unit
      DO 10 I = 1, 2\n      SUBROUTINE S\n   10 CONTINUE\n      END\n ~ 2: 11 SUBROUTINE

      PROGRAM T\n\
      I = 1\n\
      SUBROUTINE S\n\
      END\n\
      SUBROUTINE U\n\
      RETURN\n\
      END\n ~ \
3: 11 SUBROUTINE

# behind FORMAT, DATA, and statements that are refused; it is none itself where its cause is lower
   10 FORMAT (I5)\n      PROGRAM T\n      END\n ~ 2: 11 PROGRAM
      DATA I /1/\n      SUBROUTINE S\n      RETURN\n      END\n ~ 2: 11 SUBROUTINE; 3: 11 RETURN
      ENTRY E\n      SUBROUTINE S\n      END\n ~ 1: 8 ENTRY; 2: 11 SUBROUTINE
      INCLUDE 'A'\n      PROGRAM T\n      END\n ~ 1: 8 INCLUDE; 2: 11 PROGRAM
      REAL FUNCTION F(A)\n      SUBROUTINE S\n      RETURN\n      END\n ~ 1: 8 REAL; 2: 11 SUBROUTINE
      I = 1\n      PROGRAM \32{T}\n      END\n ~ 2: 10 \31{T}
      I = 1\n      REAL FUNCTION F(A)\n      RETURN\n      END\n ~ 2: 8 REAL; 3: 11 RETURN

# behind a statement without spelling, which counts as nothing, it is first
      I == 1\n      SUBROUTINE S\n      RETURN\n      END\n ~ 1: 7 I==1

# a header with a refused part is one
      SUBROUTINE S(*)\n      RETURN\n      END\n ~ 1: 8 RETURN
      INTEGER*4 FUNCTION F(A)\n      RETURN\n      END\n ~ 1: 8 LENGTH
      COMPLEX FUNCTION F(A)\n      RETURN\n      END\n ~ 1: 8 COMPLEX

# a declaration whose names only begin with FUNCTION is none
      INTEGER FUNCTION F\n      RETURN\n      END\n ~ 2: 11 RETURN
      REAL FUNCTION F\n      RETURN\n      END\n ~ 1: 8 REAL; 2: 11 RETURN
      REAL FUNCTION F(1)\n      RETURN\n      END\n ~ 1: 8 REAL; 2: 11 RETURN

# an executable statement stands before a declaration; an ELSE stands in no IF
      PROGRAM T\n      I = 1\n      INTEGER K\n      END\n ~ 3: 11 INTEGER
      PROGRAM T\n      ELSE\n      END\n ~ 2: 12 ELSE

# the variable of an implied DO in DATA, and a subscript with it
      DATA (A(1), I = 1, 1) /0/\n      PARAMETER (I = 5)\n      END\n ~ 2: 11 PARAMETER
      DATA (A(I), I = 1, 1) /0/\n      PARAMETER (I = 5)\n      END\n ~ 2: 11 PARAMETER

# IMPLICIT behind each declaration
      INTEGER K\n\
      IMPLICIT INTEGER (A)\n\
      END\n\
      LOGICAL L\n\
      IMPLICIT INTEGER (A)\n\
      END\n\
      CHARACTER*4 C\n\
      IMPLICIT INTEGER (A)\n\
      END\n\
      DIMENSION A(2)\n\
      IMPLICIT INTEGER (A)\n\
      END\n\
      COMMON A\n\
      IMPLICIT INTEGER (A)\n\
      END\n\
      EQUIVALENCE (A, B)\n\
      IMPLICIT INTEGER (A)\n\
      END\n\
      EXTERNAL F\n\
      IMPLICIT INTEGER (A)\n\
      END\n\
      INTRINSIC MOD\n\
      IMPLICIT INTEGER (A)\n\
      END\n\
      SAVE\n\
      IMPLICIT INTEGER (A)\n\
      END\n ~ \
2: 11 IMPLICIT; 5: 11 IMPLICIT; 8: 11 IMPLICIT; 11: 11 IMPLICIT; 14: 11 IMPLICIT; 17: 11 IMPLICIT; 20: 11 IMPLICIT; \
23: 11 IMPLICIT; 26: 11 IMPLICIT

# IMPLICIT behind an executable statement; behind refused statements that count as declarations, or as executable ones
      I = 1\n      IMPLICIT INTEGER (A)\n      END\n ~ 2: 11 IMPLICIT
      REAL X\n      IMPLICIT INTEGER (A)\n      END\n ~ 1: 8 REAL; 2: 11 IMPLICIT
      DOUBLE PRECISION X\n      IMPLICIT INTEGER (A)\n      END\n ~ 1: 8 DOUBLEPRECISION; 2: 11 IMPLICIT
      COMPLEX X\n      IMPLICIT INTEGER (A)\n      END\n ~ 1: 8 COMPLEX; 2: 11 IMPLICIT
      NAMELIST /N/ A\n      IMPLICIT INTEGER (A)\n      END\n ~ 1: 8 NAMELIST; 2: 11 IMPLICIT
      PAUSE\n      IMPLICIT INTEGER (A)\n      END\n ~ 1: 8 PAUSE; 2: 11 IMPLICIT

# behind others it stands, and IMPLICIT NONE is one
      IMPLICIT NONE\n      IMPLICIT INTEGER (A)\n      INTEGER K\n      END\n ~ 1: 8 NONE
      IMPLICIT REAL (A)\n      IMPLICIT INTEGER (B)\n      INTEGER K\n      END\n ~ 1: 8 REAL
      INTEGER K\n      IMPLICIT NONE\n      END\n ~ 2: 8 NONE
      ENTRY E\n      INCLUDE 'A'\n      IMPLICIT INTEGER (A)\n      END\n ~ 1: 8 ENTRY; 2: 8 INCLUDE
      INTEGER A(\n      IMPLICIT INTEGER (A)\n      END\n ~ 1: 7 INTEGERA(

# each declaration behind an executable statement, but DATA and FORMAT
      I = 1\n\
      INTEGER K\n\
      LOGICAL L\n\
      CHARACTER C\n\
      DIMENSION A(2)\n\
      COMMON B\n\
      EQUIVALENCE (B, D)\n\
      DATA J /1/\n\
      EXTERNAL G\n\
      INTRINSIC MOD\n\
   10 FORMAT (I5)\n\
      SAVE\n\
      PARAMETER (N = 3)\n\
      IMPLICIT INTEGER (X)\n\
      F() = 1\n\
      END\n ~ \
2: 11 INTEGER; 3: 11 LOGICAL; 4: 11 CHARACTER; 5: 11 DIMENSION; 6: 11 COMMON; 7: 11 EQUIVALENCE; 9: 11 EXTERNAL; \
10: 11 INTRINSIC; 12: 11 SAVE; 13: 11 PARAMETER; 14: 11 IMPLICIT; 15: 11 =

# a declaration behind each executable statement
      CONTINUE\n\
      INTEGER K\n\
      END\n\
      GO TO 10\n\
      INTEGER K\n\
      END\n\
      GO TO (10, 20), I\n\
      INTEGER K\n\
      END\n\
      IF (I) 10, 20, 30\n\
      INTEGER K\n\
      END\n\
      IF (L) I = 1\n\
      INTEGER K\n\
      END\n\
      STOP\n\
      INTEGER K\n\
      END\n\
      CALL S\n\
      INTEGER K\n\
      END\n\
      READ *, I\n\
      INTEGER K\n\
      END\n\
      WRITE (6, *) I\n\
      INTEGER K\n\
      END\n\
      PRINT *, I\n\
      INTEGER K\n\
      END\n\
      OPEN (7)\n\
      INTEGER K\n\
      END\n\
      CLOSE (7)\n\
      INTEGER K\n\
      END\n\
      REWIND 7\n\
      INTEGER K\n\
      END\n ~ \
2: 11 INTEGER; 5: 11 INTEGER; 8: 11 INTEGER; 11: 11 INTEGER; 14: 11 INTEGER; 17: 11 INTEGER; 20: 11 INTEGER; \
23: 11 INTEGER; 26: 11 INTEGER; 29: 11 INTEGER; 32: 11 INTEGER; 35: 11 INTEGER; 38: 11 INTEGER

      SUBROUTINE S\n      RETURN\n      INTEGER K\n      END\n ~ 3: 11 INTEGER
      DO 10 I = 1, 2\n      INTEGER K\n   10 CONTINUE\n      END\n ~ 2: 11 INTEGER
      IF (L) THEN\n      INTEGER K\n      ELSE\n      LOGICAL M\n      END IF\n      END\n ~ 2: 11 INTEGER; 4: 11 LOGICAL

# behind an ELSE IF, ELSE or END IF that is refused itself
      ELSE IF (L) THEN\n\
      INTEGER K\n\
      END\n\
      ELSE\n\
      INTEGER K\n\
      END\n\
      END IF\n\
      INTEGER K\n\
      END\n ~ \
1: 12 ELSEIF; 2: 11 INTEGER; 4: 12 ELSE; 5: 11 INTEGER; 7: 12 ENDIF; 8: 11 INTEGER

# behind refused statements that count as executable ones
      PAUSE 7\n\
      INTEGER K\n\
      END\n\
      ASSIGN 10 TO I\n\
      INTEGER K\n\
      END\n\
      INQUIRE (7)\n\
      INTEGER K\n\
      END\n\
      BACKSPACE 7\n\
      INTEGER K\n\
      END\n\
      ENDFILE 7\n\
      INTEGER K\n\
      END\n\
      DO WHILE (L)\n\
      INTEGER K\n\
      END\n\
      DO 10 WHILE (L)\n\
      INTEGER K\n\
      END\n\
      END DO\n\
      INTEGER K\n\
      END\n ~ \
1: 8 PAUSE; 2: 11 INTEGER; 4: 8 ASSIGN; 5: 11 INTEGER; 7: 8 INQUIRE; 8: 11 INTEGER; 10: 8 BACKSPACE; 11: 11 INTEGER; \
13: 8 ENDFILE; 14: 11 INTEGER; 16: 8 WHILE; 17: 11 INTEGER; 19: 8 WHILE; 20: 11 INTEGER; 22: 8 ENDDO; 23: 11 INTEGER

# behind statements of which a part is refused, which count as what they are read as
      I = 1.5\n      INTEGER K\n      END\n ~ 1: 8 CONSTANT; 2: 11 INTEGER
      I = 2147483648\n      INTEGER K\n      END\n ~ 1: 9 2147483648; 2: 11 INTEGER
      \32{I} = 1\n      INTEGER K\n      END\n ~ 1: 10 \31{I}; 2: 11 INTEGER
      GO TO K\n      INTEGER K\n      END\n ~ 1: 8 GOTO; 2: 11 INTEGER
      IF (L) PAUSE\n      INTEGER K\n      END\n ~ 1: 8 PAUSE; 2: 11 INTEGER
      READ (5) I\n      INTEGER K\n      END\n ~ 1: 8 UNFORMATTED; 2: 11 INTEGER
      SUBROUTINE S\n      RETURN 1\n      INTEGER K\n      END\n ~ 2: 8 RETURN; 3: 11 INTEGER

# a lower cause of the declaration itself; declarations behind no executable statement
      I = 1\n      REAL X\n      INTEGER A(1.5)\n      IMPLICIT NONE\n      END\n ~ 2: 8 REAL; 3: 8 CONSTANT; 4: 8 NONE
      I == 1\n      INTEGER K\n      END\n ~ 1: 7 I==1
      ENTRY E\n      INTEGER K\n      END\n ~ 1: 8 ENTRY

# PARAMETER behind a use of its name: in a bound
      INTEGER A(N)\n      PARAMETER (N = 3)\n      END\n ~ 2: 11 PARAMETER
      LOGICAL A(N:9)\n      PARAMETER (N = 3)\n      END\n ~ 2: 11 PARAMETER
      CHARACTER C(2, N)\n      PARAMETER (N = 3)\n      END\n ~ 2: 11 PARAMETER
      DIMENSION A(2, 3*(N + 1))\n      PARAMETER (N = 3)\n      END\n ~ 2: 11 PARAMETER
      COMMON /B/ A(-N:N)\n      PARAMETER (N = 3)\n      END\n ~ 2: 11 PARAMETER

# in a length
      CHARACTER*(N) C\n      PARAMETER (N = 3)\n      END\n ~ 2: 11 PARAMETER
      CHARACTER C*(N + 1)\n      PARAMETER (N = 3)\n      END\n ~ 2: 11 PARAMETER
      IMPLICIT CHARACTER*(N) (C)\n      PARAMETER (N = 3)\n      END\n ~ 2: 11 PARAMETER

# in the value of a constant
      PARAMETER (M = N)\n      PARAMETER (N = 3)\n      END\n ~ 2: 11 PARAMETER
      PARAMETER (M = 2, L = 2*N - M)\n      PARAMETER (K = 3, N = 3)\n      END\n ~ 2: 11 PARAMETER

# in DATA: an object, a subscript, a bound of a substring, a value, a repeat, a bound of a list
      DATA N /1/\n      PARAMETER (N = 3)\n      END\n ~ 2: 11 PARAMETER
      DATA A(N) /1/\n      PARAMETER (N = 3)\n      END\n ~ 2: 11 PARAMETER
      DATA C(N:2) /'A'/\n      PARAMETER (N = 3)\n      END\n ~ 2: 11 PARAMETER
      DATA I, J /1, N/\n      PARAMETER (N = 3)\n      END\n ~ 2: 11 PARAMETER
      DATA A /N*0/\n      PARAMETER (N = 3)\n      END\n ~ 2: 11 PARAMETER
      DATA (A(I), I = 1, N) /3*0/\n      PARAMETER (N = 3)\n      END\n ~ 2: 11 PARAMETER
      DATA (A(I), I = 1, 9, N) /3*0/\n      PARAMETER (N = 3)\n      END\n ~ 2: 11 PARAMETER
      DATA ((A(I, J + N), I = 1, 2), J = 1, 2) /4*0/\n      PARAMETER (N = 3)\n      END\n ~ 2: 11 PARAMETER
      DATA J /1/, I /N/\n      INTEGER K\n      PARAMETER (N = 3)\n      END\n ~ 3: 11 PARAMETER

# in a subscript or bound of EQUIVALENCE, in a statement function
      EQUIVALENCE (A(N), B)\n      PARAMETER (N = 3)\n      END\n ~ 2: 11 PARAMETER
      EQUIVALENCE (A, B), (C(N:3), D)\n      PARAMETER (N = 3)\n      END\n ~ 2: 11 PARAMETER
      EQUIVALENCE (A, C(1)(2:N))\n      PARAMETER (N = 3)\n      END\n ~ 2: 11 PARAMETER
      F(K) = K + N\n      PARAMETER (N = 3)\n      END\n ~ 2: 11 PARAMETER
      F() = G(2, N)\n      PARAMETER (N = 3)\n      END\n ~ 2: 11 PARAMETER

# one of several names; in a refused part's statement; one refusal for a statement, of the lowest cause
      INTEGER A(M)\n      PARAMETER (L = 1, M = 2)\n      END\n ~ 2: 11 PARAMETER
      INTEGER*4 A(N)\n      PARAMETER (N = 3)\n      END\n ~ 1: 8 LENGTH; 2: 11 PARAMETER
      INTEGER A(N, 1.5)\n      PARAMETER (N = 3)\n      END\n ~ 1: 8 CONSTANT; 2: 11 PARAMETER
      INTEGER A(N)\n      I = N\n      PARAMETER (N = 3)\n      END\n ~ 3: 11 PARAMETER
      INTEGER A(N)\n      PARAMETER (N = 1.5)\n      END\n ~ 2: 8 CONSTANT
      I = N\n      PARAMETER (N = 3)\n      END\n ~ 2: 11 PARAMETER

# a statement that is refused as a whole uses nothing
      DOUBLE PRECISION A(N)\n      PARAMETER (N = 3)\n      END\n ~ 1: 8 DOUBLEPRECISION

# RETURN in a main program, with PROGRAM and without, and under a logical IF
      PROGRAM T\n      RETURN\n      END\n ~ 2: 11 RETURN
      RETURN\n      END\n ~ 1: 11 RETURN
      PROGRAM T\n      IF (L) RETURN\n      IF (L) STOP\n      END\n ~ 2: 11 IF
      PROGRAM T\n      RETURN 1\n      IF (L) RETURN 1\n      END\n ~ 2: 8 RETURN; 3: 8 RETURN
      SUBROUTINE S\n      RETURN\n      END\n      RETURN\n      END\n ~ 4: 11 RETURN

# executable statements in BLOCK DATA
      BLOCK DATA\n\
      I = 1\n\
      GO TO 10\n\
      GO TO (10, 20), I\n\
      IF (I) 10, 20, 30\n\
      IF (L) I = 1\n\
      CONTINUE\n\
      RETURN\n\
      STOP\n\
      CALL S\n\
      READ *, I\n\
      WRITE (6, *) I\n\
      PRINT *, I\n\
      OPEN (7)\n\
      CLOSE (7)\n\
      REWIND 7\n\
      IF (L) RETURN\n\
      END\n ~ \
2: 11 =; 3: 11 GOTO; 4: 11 GOTO; 5: 11 IF; 6: 11 IF; 7: 11 CONTINUE; 8: 11 RETURN; 9: 11 STOP; 10: 11 CALL; 11: 11 READ; \
12: 11 WRITE; 13: 11 PRINT; 14: 11 OPEN; 15: 11 CLOSE; 16: 11 REWIND; 17: 11 IF

      BLOCK DATA B\n\
      DO 10 I = 1, 2\n\
      IF (L) THEN\n\
      ELSE IF (M) THEN\n\
      ELSE\n\
      END IF\n\
   10 CONTINUE\n\
      END\n ~ \
2: 11 DO; 3: 11 IF; 4: 11 ELSEIF; 5: 11 ELSE; 6: 11 ENDIF; 7: 11 CONTINUE

      BLOCK DATA\n      PAUSE\n      I = 1.5\n      END DO\n      END\n ~ 2: 8 PAUSE; 3: 8 CONSTANT; 4: 8 ENDDO
      BLOCK DATA\n      I = 1\n      INTEGER K\n      END\n ~ 2: 11 =; 3: 11 INTEGER
      BLOCK DATA\n      DIMENSION A(2)\n      A(I) = 1\n      END\n ~ 3: 11 =

# the order is refused before the nesting
      BLOCK DATA\n      DO 10 I = 1, 2\n      ELSE\n      END\n ~ 2: 11 DO; 3: 11 ELSE

# an assignment to an array element is executable, a statement function isn't
      INTEGER A(10)\n      A(I) = 1\n      INTEGER K\n      END\n ~ 3: 11 INTEGER
      LOGICAL A(10)\n      A(I) = .TRUE.\n      INTEGER K\n      END\n ~ 3: 11 INTEGER
      CHARACTER C(3)*4\n      C(I) = 'A'\n      INTEGER K\n      END\n ~ 3: 11 INTEGER
      DIMENSION B(2), A(10)\n      A(I) = 1\n      EXTERNAL F\n      END\n ~ 3: 11 EXTERNAL
      COMMON /B/ A(10) /C/ D\n      A(I) = 1\n      SAVE\n      END\n ~ 3: 11 SAVE
      COMMON A, B(10)\n      B(I) = 1\n      SAVE\n      END\n ~ 3: 11 SAVE
      A(I) = 1\n      INTEGER A(10)\n      END\n ~ 2: 11 INTEGER
      A(I) = 1\n      DIMENSION A(10)\n      COMMON B\n      END\n ~ 2: 11 DIMENSION; 3: 11 COMMON
      A(I) = 1\n      I = 2\n      COMMON A(10)\n      END\n ~ 3: 11 COMMON
      A(1) = 1\n      INTEGER K\n      END\n ~ 2: 11 INTEGER
      A(I + J) = 1\n      INTEGER K\n      END\n ~ 2: 11 INTEGER
      C(I)(1:2) = 'A'\n      INTEGER K\n      END\n ~ 2: 11 INTEGER
      C(I:J) = 'A'\n      INTEGER K\n      END\n ~ 2: 11 INTEGER

# where the declaration or the expression has a refused part too, but not where it is refused as a whole or has no spelling
      INTEGER*4 A(10)\n      A(I) = 1\n      INTEGER K\n      END\n ~ 1: 8 LENGTH; 3: 11 INTEGER
      INTEGER A(1.5)\n      A(I) = 1\n      INTEGER K\n      END\n ~ 1: 8 CONSTANT; 3: 11 INTEGER
      REAL A(10)\n      A(I) = 1\n      INTEGER K\n      END\n ~ 1: 8 REAL
      INTEGER A(10), \n      A(I) = 1\n      INTEGER K\n      END\n ~ 1: 7 INTEGERA(10)
      A(I) = 1.5\n      INTEGER K\n      END\n ~ 1: 8 CONSTANT
      A(*10) = 1\n      INTEGER K\n      END\n ~ 1: 7 A(*10)=1

# ELSE, ELSE IF and END IF without an IF, and where a DO is innermost
      ELSE\n      END\n ~ 1: 12 ELSE
      ELSE IF (L) THEN\n      END\n ~ 1: 12 ELSEIF
      END IF\n      END\n ~ 1: 12 ENDIF
      IF (L) THEN\n      END IF\n      END IF\n      END\n ~ 3: 12 ENDIF

      IF (L) THEN\n\
      DO 10 I = 1, 2\n\
      ELSE\n\
      ELSE IF (M) THEN\n\
      END IF\n\
   10 CONTINUE\n\
      ELSE\n\
      END IF\n\
      END\n ~ \
3: 12 ELSE; 4: 12 ELSEIF; 5: 12 ENDIF

# ELSE and ELSE IF behind an ELSE; they begin no arm
      IF (L) THEN\n      ELSE\n      ELSE\n      END IF\n      END\n ~ 3: 12 ELSE
      IF (L) THEN\n      ELSE\n      ELSE IF (M) THEN\n      ELSE\n      END IF\n      END\n ~ 3: 12 ELSEIF; 4: 12 ELSE

      IF (L) THEN\n\
      ELSE IF (M) THEN\n\
      IF (N) THEN\n\
      ELSE\n\
      ELSE IF (M) THEN\n\
      END IF\n\
      ELSE\n\
      ELSE\n\
      END IF\n\
      END\n ~ \
5: 12 ELSEIF; 8: 12 ELSE

# they end no DO, whether they are refused or not
      DO 10 I = 1, 2\n   10 ELSE\n      END\n ~ 1: 12 10; 2: 12 ELSE
      DO 10 I = 1, 2\n   10 END IF\n   10 CONTINUE\n      END\n ~ 2: 12 ENDIF
      DO 10 I = 1, 2\n      IF (L) THEN\n   10 END IF\n      END\n ~ 1: 12 10
      DO 10 I = 1, 2\n      IF (L) THEN\n   10 ELSE\n      END IF\n      END\n ~ 1: 12 10
      DO 10 I = 1, 2\n      IF (L) THEN\n   10 ELSE IF (M) THEN\n      END IF\n      END\n ~ 1: 12 10

# a DO whose label doesn't come behind it in its unit
      DO 10 I = 1, 2\n      I = 1\n      END\n ~ 1: 12 10
      DO 00200, I = 1, 2\n      END\n ~ 1: 12 200
   10 CONTINUE\n      DO 10 I = 1, 2\n      END\n ~ 2: 12 10
   10 DO 10 I = 1, 2\n      END\n ~ 1: 12 10
      DO 10 I = 1, 2\n      END\n   10 CONTINUE\n      END\n ~ 1: 12 10
      DO 10 I = 1, 2\n      DO 20 J = 1, 2\n      DO 10 K = 1, 2\n      END\n ~ 1: 12 10; 2: 12 20; 3: 12 10

# its label comes while another construct is open inside it
      DO 10 I = 1, 2\n      IF (L) THEN\n   10 CONTINUE\n      END IF\n      END\n ~ 1: 12 10
      DO 10 I = 1, 2\n      IF (L) THEN\n      ELSE\n   10 I = 1\n      END IF\n      END\n ~ 1: 12 10
      DO 10 I = 1, 2\n      DO 20 J = 1, 2\n   10 CONTINUE\n   20 CONTINUE\n      END\n ~ 1: 12 10

      DO 10 I = 1, 2\n\
      DO 20 J = 1, 2\n\
      DO 10 K = 1, 2\n\
   10 CONTINUE\n\
   20 CONTINUE\n\
      END\n ~ \
1: 12 10

      DO 10 I = 1, 2\n\
      DO 10 J = 1, 2\n\
      IF (L) THEN\n\
      DO 10 K = 1, 2\n\
   10 CONTINUE\n\
      END IF\n\
   10 CONTINUE\n\
      END\n ~ \
1: 12 10; 2: 12 10

# it is ended there: the IF goes on, and so does a DO around it
      DO 20 J = 1, 2\n\
      DO 10 I = 1, 2\n\
      IF (L) THEN\n\
   10 CONTINUE\n\
      ELSE\n\
      END IF\n\
      ELSE\n\
   20 CONTINUE\n\
      END\n ~ \
2: 12 10; 7: 12 ELSE

# terminal statements of each wrong kind
      DO 10 I = 1, 2\n   10 GO TO 20\n      END\n ~ 2: 12 GOTO
      DO 10 I = 1, 2\n   10 IF (I) 1, 2, 3\n      END\n ~ 2: 12 IF
      DO 10 I = 1, 2\n   10 IF (L) THEN\n      END IF\n      END\n ~ 2: 12 IF
      DO 10 I = 1, 2\n   10 DO 20 J = 1, 2\n   20 CONTINUE\n      END\n ~ 2: 12 DO
      SUBROUTINE S\n      DO 10 I = 1, 2\n   10 RETURN\n      END\n ~ 3: 12 RETURN
      DO 10 I = 1, 2\n   10 STOP 1\n      END\n ~ 2: 12 STOP
      DO 10 I = 1, 2\n   10 END\n ~ 2: 12 END

# of the order too
      DO 10 I = 1, 2\n   10 RETURN\n      END\n ~ 2: 11 RETURN

# they end all DOs that name the label, and a block IF or DO opens
      DO 10 I = 1, 2\n      DO 10 J = 1, 2\n   10 STOP\n      ELSE\n      END\n ~ 3: 12 STOP; 4: 12 ELSE
      DO 10 I = 1, 2\n   10 IF (L) THEN\n      ELSE\n      END IF\n      END IF\n      END\n ~ 2: 12 IF; 5: 12 ENDIF
      DO 10 I = 1, 2\n   10 IF (L) THEN\n      END\n ~ 2: 12 IF; 3: 12 END
      DO 10 I = 1, 2\n   10 DO 10 J = 1, 2\n   10 CONTINUE\n      END\n ~ 2: 12 DO
      DO 10 I = 1, 2\n      IF (L) THEN\n   10 GO TO 20\n      END IF\n      END\n ~ 1: 12 10; 3: 12 GOTO

# a DO of a wrong kind that has no terminal statement itself
      DO 10 I = 1, 2\n   10 DO 20 J = 1, 2\n      END\n ~ 2: 12 DO
      DO 10 I = 1, 2\n   10 DO 20 J = 1, 2\n      IF (L) THEN\n   20 CONTINUE\n      END IF\n      END\n ~ 2: 12 DO

# an IF that is open at END, and END as a terminal statement
      IF (L) THEN\n      END\n ~ 2: 12 END
      IF (L) THEN\n      IF (M) THEN\n      ELSE\n      END IF\n      ELSE IF (M) THEN\n      END\n ~ 6: 12 END
      IF (L) THEN\n      DO 10 I = 1, 2\n      END\n ~ 2: 12 10; 3: 12 END
      DO 10 I = 1, 2\n      IF (L) THEN\n      END\n ~ 1: 12 10; 3: 12 END
      DO 10 I = 1, 2\n      DO 10 J = 1, 2\n   10 END\n ~ 3: 12 END
      IF (L) THEN\n      DO 10 J = 1, 2\n   10 END\n ~ 3: 12 END
      DO 20 I = 1, 2\n      DO 10 J = 1, 2\n   10 END\n ~ 1: 12 20; 3: 12 END

# statements that aren't executable end no DO: FORMAT, DATA, declarations, statement functions, headers
      DO 10 I = 1, 2\n   10 FORMAT (I5)\n      END\n ~ 1: 12 10
      DO 10 I = 1, 2\n   10 DATA J /1/\n      END\n ~ 1: 12 10
      DO 10 I = 1, 2\n   10 INTEGER K\n      END\n ~ 1: 12 10; 2: 11 INTEGER
      DO 10 I = 1, 2\n   10 F() = 1\n      END\n ~ 1: 12 10; 2: 11 =
      DO 10 I = 1, 2\n   10 PROGRAM T\n      END\n ~ 1: 12 10; 2: 11 PROGRAM

# refused statements end a DO where they are executable ones, but DO WHILE and END DO, which are left out with their labels
      DO 10 I = 1, 2\n   10 PAUSE\n      END\n ~ 2: 8 PAUSE
      DO 10 I = 1, 2\n   10 BACKSPACE 7\n      END\n ~ 2: 8 BACKSPACE
      DO 10 I = 1, 2\n   10 I = 1.5\n      END\n ~ 2: 8 CONSTANT
      DO 10 I = 1, 2\n   10 IF (L) PAUSE\n      END\n ~ 2: 8 PAUSE
      DO 10 I = 1, 2\n   10 GO TO K\n      END\n ~ 2: 8 GOTO
      SUBROUTINE S\n      DO 10 I = 1, 2\n   10 RETURN 1\n      END\n ~ 3: 8 RETURN
      DO 10 I = 1, 2\n   10 END DO\n      END\n ~ 1: 12 10; 2: 8 ENDDO
      DO 10 I = 1, 2\n   10 DO 20 WHILE (L)\n      END\n ~ 1: 12 10; 2: 8 WHILE
      DO 10 I = 1, 2\n   10 DO 20 WHILE (L)\n   10 CONTINUE\n      END\n ~ 2: 8 WHILE
      DO 10 WHILE (L)\n      ELSE\n   10 CONTINUE\n      END\n ~ 1: 8 WHILE; 2: 12 ELSE
      DO 10 I = 1, 2\n   10 ENTRY E\n      END\n ~ 1: 12 10; 2: 8 ENTRY
      DO 10 I = 1, 2\n   10 INCLUDE 'A'\n      END\n ~ 1: 12 10; 2: 8 INCLUDE
      DO 10 I = 1, 2\n   10 REAL X\n      END\n ~ 1: 12 10; 2: 8 REAL
      DO 10 I = 1, 2\n   10 I == 1\n      END\n ~ 1: 12 10; 2: 7 I==1

# DO and block IF with refused parts nest
      IF (I .EQ. 1.5) THEN\n\
      ELSE IF (I .EQ. 2147483648) THEN\n\
      DO 10 I = 1, 2147483648\n\
   10 CONTINUE\n\
      ELSE\n\
      END IF\n\
      END\n ~ \
1: 8 CONSTANT; 2: 9 2147483648; 3: 9 2147483648

      DO 10 I = 1, 1.5\n      END\n ~ 1: 8 CONSTANT
      IF (I .EQ. 1.5) THEN\n      END\n ~ 1: 8 CONSTANT; 2: 12 END
      DO 10 I = 1, 2\n   10 IF (I .EQ. 1.5) THEN\n      END IF\n      END\n ~ 2: 8 CONSTANT
      IF (L THEN\n      END IF\n      END\n ~ 1: 7 IF(LTHEN; 2: 12 ENDIF

# a file that ends without END, and the name of its last unit
      PROGRAM T\n      I = 1\n ~ 2: 13 T
      PROGRAM T\n ~ 1: 13 T
      I = 1\n ~ 1: 13 MAIN
      SUBROUTINE S(A)\n      A = 1\n ~ 2: 13 S
      INTEGER FUNCTION F(A)\n      F = 1\n ~ 2: 13 F
      BLOCK DATA B\n      COMMON /C/ I\n ~ 2: 13 B
      BLOCK DATA\n      COMMON /C/ I\n ~ 2: 13 MAIN
      PROGRAM T\n      END\n      I = 1\n ~ 3: 13 MAIN
      PROGRAM T\n      END\n      SUBROUTINE S\n      CALL T\n   10 FORMAT (I5)\n ~ 5: 13 S
      PROGRAM \32{T}\n      I = 1\n ~ 1: 10 \31{T}; 2: 13 \31{T}
      REAL FUNCTION F(A)\n      F = A\n ~ 1: 8 REAL; 2: 13 MAIN
      I == 1\n      SUBROUTINE S\n      J = 1\n ~ 1: 7 I==1; 3: 13 S
      PROGRAM T\nC\n      I = 1\nC\n     1+ 2\nC\n ~ 3: 13 T

# a misplaced header gives no name
      I = 1\n      PROGRAM T\n      J = 1\n ~ 2: 11 PROGRAM; 3: 13 MAIN
      PROGRAM T\n      SUBROUTINE S\n      J = 1\n ~ 2: 11 SUBROUTINE; 3: 13 T

# where the last statement has a lower cause
      PROGRAM T\n      I == 1\n ~ 2: 7 I==1
      PROGRAM T\n      REAL X\n ~ 2: 8 REAL
      PROGRAM T\n      I = 2147483648\n ~ 2: 9 2147483648
      PROGRAM T\n      CALL \32{S}\n ~ 2: 10 \31{S}
      I = 1\n      PROGRAM T\n ~ 2: 11 PROGRAM
      PROGRAM T\n      ELSE\n ~ 2: 12 ELSE
      DO 10 I = 1, 2\n   10 STOP\n ~ 2: 12 STOP

# behind the last END statements without spelling are no unit
      END\n      I == 1\n      J == 1\n ~ 2: 7 I==1; 3: 7 J==1

# DOs that are open there are refused, IFs aren't
      DO 10 I = 1, 2\n      DO 20 J = 1, 2\n      IF (L) THEN\n      I = 1\n ~ 1: 12 10; 2: 12 20; 4: 13 MAIN
      PROGRAM T\n      DO 10 I = 1, 2\n ~ 2: 12 10
      IF (L) THEN\n      IF (M) THEN\n ~ 2: 13 MAIN

# several units, each with what is refused of it, in the order of lines
      PROGRAM T\n\
      DO 10 I = 1, 2\n\
      ELSE\n\
      END\n\
      SUBROUTINE S\n\
      A = 1\n\
      INTEGER K\n\
      IF (L) THEN\n\
      END\n\
      BLOCK DATA\n\
      STOP\n\
      END\n\
      INTEGER FUNCTION F(N)\n\
      DO 20 I = 1, 2\n\
      F = 2147483648\n\
   20 RETURN\n ~ \
2: 12 10; 3: 12 ELSE; 7: 11 INTEGER; 9: 12 END; 11: 11 STOP; 15: 9 2147483648; 16: 12 RETURN

# PARAMETER behind a use of its name in the length of the function, which its header has
      CHARACTER*(N) FUNCTION F()\n      PARAMETER (N = 3)\n      F = 'A'\n      END\n ~ 2: 11 PARAMETER
"#;

/// The file, which is file 7; its units, with a `&` between them. A unit is `unit`, where its first statement stands, and behind
/// strokes its header, its declarations, its statement functions, its items and its END, `-` where there are none.
///
/// - Where a statement stands is its number; behind a colon its line, unless this is the next number; and behind a stroke its label,
///   if it has one. Statements are in the words of `forms.rt`, with semicolons between them.
/// - A DO is its statement and its list in parentheses. A block IF is where it stands, `block`, for each arm its statement and its
///   list in parentheses, and its END IF.
pub const READ_UNITS: &str = r#"
# no statement, END alone, a main program without PROGRAM, several ENDs
 ~
C\n\n* ONE\n ~
      END\n ~ unit 0 | - | - | - | - | 0 end
      I = 1\n      END\n ~ unit 0 | - | - | - | 0 I = 1 | 1 end
      PROGRAM T\n      END\n ~ unit 0 | 0 program T | - | - | - | 1 end
      END\n      END\n ~ unit 0 | - | - | - | - | 0 end & unit 1 | - | - | - | - | 1 end

# BLOCK DATA, with a name and without; an element of no array is a statement function there
      BLOCK DATA\n\
      COMMON /C/ I, A(2)\n\
      DATA I /1/\n\
      END\n\
      BLOCK DATA B\n\
      F(I) = I\n\
      END\n ~ \
unit 0 | 0 block data | 1 common: /C/ I A[2]; 2 data: I/1/ | - | - | 3 end & \
unit 4 | 4 block data B | - | 5 F[I] := I | - | 6 end

# headers of all kinds, and all declarations
      PROGRAM T\n\
      IMPLICIT CHARACTER*4 (C)\n\
      PARAMETER (N = 3)\n\
      EQUIVALENCE (A, B(1))\n\
      EXTERNAL S\n\
      INTRINSIC MOD\n\
      SAVE /X/\n\
      END\n\
      SUBROUTINE S(A, B)\n\
      END\n\
      FUNCTION F(A)\n\
      END\n\
      LOGICAL FUNCTION G()\n\
      END\n\
      CHARACTER*8 FUNCTION H(A, B)\n\
      END\n\
      BLOCK DATA\n\
      END\n ~ \
unit 0 | 0 program T | \
1 implicit: character*4[C]; 2 parameter: N=3; 3 equivalence: (A,B[1]); 4 external: S; 5 intrinsic: MOD; 6 save: /X/ | - | - | 7 end & \
unit 8 | 8 subroutine S[A,B] | - | - | - | 9 end & \
unit 10 | 10 function F[A] | - | - | - | 11 end & \
unit 12 | 12 logical function G[] | - | - | - | 13 end & \
unit 14 | 14 character*8 function H[A,B] | - | - | - | 15 end & \
unit 16 | 16 block data | - | - | - | 17 end

# several units, of which one has its END on two lines
      program t\n\
      call s(i)\n\
      e n d\n\
      subroutine s(n)\n\
      n = f(n)\n\
      if (n .lt. 0) return\n\
      return\n\
      en\n\
     1d\n\
C\n\
      integer function f(n)\n\
      f = n\n\
   99 end\n\
      i = 1\n\
      end\n ~ \
unit 0 | 0 program T | - | - | 1 call S[I] | 2 end & \
unit 3 | 3 subroutine S[N] | - | - | 4 N = F[N]; 5 if({N lt 0}) return; 6 return | 7 end & \
unit 8:11 | 8:11 integer function F[N] | - | - | 9:12 F = N | 10:13/99 end & \
unit 11:14 | - | - | - | 11:14 I = 1 | 12:15 end

# comments and continuation lines everywhere
C\n\
C\n\
      PROGRAM\n\
C\n\
     1  T\n\
\n\
      INTEGER K\n\
* \n\
      DO 10\n\
C\n\
     1 I = 1,\n\
     2 5\n\
C\n\
\n\
   10 K =\n\
! \n\
     1 I\n\
C\n\
      END\n\
C\n\
C\n ~ \
unit 0:3 | 0:3 program T | 1:7 integer: K | - | 2:9 do 10 I=1,5 ( 3:15/10 K = I ) | 4:19 end

# labels on statements of all sorts
    1 PROGRAM T\n\
    2 INTEGER K\n\
    3 F(N) = N\n\
    4 DATA K /1/\n\
    5 IF (L) THEN\n\
    6 K = 1\n\
    7 ELSE IF (M) THEN\n\
    8 ELSE\n\
    9 END IF\n\
   10 IF (L) K = 2\n\
   11 DO 12 I = 1, 2\n\
   12 CONTINUE\n\
   13 FORMAT (I5)\n\
   14 END\n ~ \
unit 0 | 0/1 program T | 1/2 integer: K; 3/4 data: K/1/; 12/13 format: (1i5) | 2/3 F[N] := N | \
4/5 block 4/5 if(L) then ( 5/6 K = 1 ) 6/7 else if(M) then ( - ) 7/8 else ( - ) 8/9 end if; \
9/10 if(L) K = 2; 10/11 do 12 I=1,2 ( 11/12 continue ) | 13/14 end

# blanks don't count: a variable and a DO
      PROGRAM T\n\
      INTEGER DO10I\n\
      DO10I=15\n\
      DO10I=1,5\n\
   10 J = I\n\
      END\n ~ \
unit 0 | 0 program T | 1 integer: DO10I | - | 2 DO10I = 15; 3 do 10 I=1,5 ( 4/10 J = I ) | 5 end

      D O 1 0 I = 1 , 5\n\
 1 0  C O N T I N U E\n\
      D O 1 0 I = 1 . EQ. 5\n\
      E N D I F = 1\n\
      E N D\n ~ \
unit 0 | - | - | - | 0 do 10 I=1,5 ( 1/10 continue ); 2 DO10I = {1 eq 5}; 3 ENDIF = 1 | 4 end

# a comma in parentheses makes no DO, and an assignment to such a name is a terminal statement
      DO 10 I = A(1, 2)\n\
      DO 10 I = A(1), A(2)\n\
   10 DO 20 I = 5\n\
      END\n ~ \
unit 0 | - | - | - | 0 DO10I = A[1,2]; 1 do 10 I=A[1],A[2] ( 2/10 DO20I = 5 ) | 3 end

# labels are numbers
      DO 002, I = 1, 2\n\
 0 2  CONTINUE\n\
      DO 20 I = 1, 2\n\
00020 J = 1\n\
      END\n ~ \
unit 0 | - | - | - | 0 do 2 I=1,2 ( 1/2 continue ); 2 do 20 I=1,2 ( 3/20 J = 1 ) | 4 end

# a DO with only its terminal statement; first, last and increment; its own label
      DO 10 I = 1, N + 1\n\
   10 CONTINUE\n\
   20 DO 20, I = N, 1, -1\n\
   20 I = I\n\
      END\n ~ \
unit 0 | - | - | - | 0 do 10 I=1,{N+1} ( 1/10 continue ); 2/20 do 20 I=N,1,{-1} ( 3/20 I = I ) | 4 end

# a terminal statement that two DOs share
      PROGRAM T\n\
      DO 10 I = 1, 3\n\
      DO 10 J = 1, 3\n\
      IF (J .EQ. I) GO TO 10\n\
      K = J\n\
   10 CONTINUE\n\
      END\n ~ \
unit 0 | 0 program T | - | - | \
1 do 10 I=1,3 ( 2 do 10 J=1,3 ( 3 if({J eq I}) goto 10; 4 K = J; 5/10 continue ) ) | 6 end

      PROGRAM T\n\
      DO 10 I = 1, 3\n\
      IF (I .EQ. 2) GO TO 10\n\
      DO 10 J = 1, 3\n\
      IF (J .EQ. I) GO TO 10\n\
      K = J\n\
   10 CONTINUE\n\
      END\n ~ \
unit 0 | 0 program T | - | - | \
1 do 10 I=1,3 ( 2 if({I eq 2}) goto 10; 3 do 10 J=1,3 ( 4 if({J eq I}) goto 10; 5 K = J; 6/10 continue ) ) | 7 end

# three of them, and what stands behind
      DO 10 I = 1, 3\n\
      K = 1\n\
      DO 10 J = 1, 3\n\
      DO 10 L = 1, 3\n\
      K = 2\n\
   10 K = 3\n\
      K = 4\n\
      END\n ~ \
unit 0 | - | - | - | \
0 do 10 I=1,3 ( 1 K = 1; 2 do 10 J=1,3 ( 3 do 10 L=1,3 ( 4 K = 2; 5/10 K = 3 ) ) ); 6 K = 4 | 7 end

# DOs of other labels before the shared terminal statement, inside and outside
      DO 30 I = 1, 3\n\
      DO 10 J = 1, 3\n\
      DO 20 K = 1, 3\n\
   20 CONTINUE\n\
      DO 10 K = 1, 3\n\
   10 CALL S\n\
   30 CALL T\n\
      END\n ~ \
unit 0 | - | - | - | \
0 do 30 I=1,3 ( 1 do 10 J=1,3 ( 2 do 20 K=1,3 ( 3/20 continue ); 4 do 10 K=1,3 ( 5/10 call S[] ) ); 6/30 call T[] ) | 7 end

# two terminal statements of one label, one behind the other and one inside the other's DO
      DO 10 I = 1, 3\n\
   10 CONTINUE\n\
      DO 10 J = 1, 3\n\
   10 CONTINUE\n\
   10 CONTINUE\n\
      END\n ~ \
unit 0 | - | - | - | 0 do 10 I=1,3 ( 1/10 continue ); 2 do 10 J=1,3 ( 3/10 continue ); 4/10 continue | 5 end

# every other executable statement may be a terminal statement
      SUBROUTINE S\n\
      DO 1 I = 1, 2\n\
    1 A(I) = 1\n\
      DO 2 I = 1, 2\n\
    2 GO TO (1, 2), I\n\
      DO 3 I = 1, 2\n\
    3 IF (L) GO TO 1\n\
      DO 4 I = 1, 2\n\
    4 IF (L) STOP\n\
      DO 5 I = 1, 2\n\
    5 IF (L) RETURN\n\
      DO 6 I = 1, 2\n\
    6 IF (L) IF (I) = 2\n\
      DO 7 I = 1, 2\n\
    7 READ *, I\n\
      DO 8 I = 1, 2\n\
    8 WRITE (6, *) I\n\
      DO 9 I = 1, 2\n\
    9 PRINT *, I\n\
      DO 10 I = 1, 2\n\
   10 OPEN (7)\n\
      DO 11 I = 1, 2\n\
   11 CLOSE (7)\n\
      DO 12 I = 1, 2\n\
   12 REWIND 7\n\
      DO 13 I = 1, 2\n\
   13 IF (L) IF (I) 1, 2, 3\n\
      END\n ~ \
unit 0 | 0 subroutine S[] | - | - | \
1 do 1 I=1,2 ( 2/1 A[I] = 1 ); 3 do 2 I=1,2 ( 4/2 goto [1,2] I ); 5 do 3 I=1,2 ( 6/3 if(L) goto 1 ); \
7 do 4 I=1,2 ( 8/4 if(L) stop ); 9 do 5 I=1,2 ( 10/5 if(L) return ); 11 do 6 I=1,2 ( 12/6 if(L) IF[I] = 2 ); \
13 do 7 I=1,2 ( 14/7 read *: I ); 15 do 8 I=1,2 ( 16/8 write(unit 6,format *) I ); 17 do 9 I=1,2 ( 18/9 print *: I ); \
19 do 10 I=1,2 ( 20/10 open(unit 7) ); 21 do 11 I=1,2 ( 22/11 close(unit 7) ); 23 do 12 I=1,2 ( 24/12 rewind(unit 7) ); \
25 do 13 I=1,2 ( 26/13 if(L) if(I) 1,2,3 ) | 27 end

# block IFs inside DOs that share their terminal statement
      DO 10 I = 1, 2\n\
      IF (L) THEN\n\
      K = 1\n\
      END IF\n\
      DO 10 J = 1, 2\n\
      IF (M) THEN\n\
      ELSE\n\
      K = 2\n\
      END IF\n\
   10 IF (N) K = 3\n\
      END\n ~ \
unit 0 | - | - | - | \
0 do 10 I=1,2 ( 1 block 1 if(L) then ( 2 K = 1 ) 3 end if; \
4 do 10 J=1,2 ( 5 block 5 if(M) then ( - ) 6 else ( 7 K = 2 ) 8 end if; 9/10 if(N) K = 3 ) ) | 10 end

# what stands behind GO TO, STOP and RETURN stays in the list; the same labels in two units
      SUBROUTINE S\n\
      GO TO 10\n\
      I = 1\n\
      DO 10 I = 1, 2\n\
      STOP\n\
      I = 2\n\
   10 CONTINUE\n\
      RETURN\n\
      I = 3\n\
      END\n\
      DO 10 I = 1, 2\n\
   10 CONTINUE\n\
      END\n ~ \
unit 0 | 0 subroutine S[] | - | - | \
1 goto 10; 2 I = 1; 3 do 10 I=1,2 ( 4 stop; 5 I = 2; 6/10 continue ); 7 return; 8 I = 3 | 9 end & \
unit 10 | - | - | - | 10 do 10 I=1,2 ( 11/10 continue ) | 12 end

# DO in IF in DO
      DO 10 I = 1, 2\n\
      IF (L) THEN\n\
      DO 20 J = 1, 2\n\
   20 K = 1\n\
      END IF\n\
   10 CONTINUE\n\
      END\n ~ \
unit 0 | - | - | - | \
0 do 10 I=1,2 ( 1 block 1 if(L) then ( 2 do 20 J=1,2 ( 3/20 K = 1 ) ) 4 end if; 5/10 continue ) | 6 end

# DOs in each arm, and one label in several arms
      IF (L) THEN\n\
      DO 10 I = 1, 2\n\
   10 CONTINUE\n\
      ELSE IF (M) THEN\n\
      DO 10 I = 1, 2\n\
      DO 10 J = 1, 2\n\
   10 CONTINUE\n\
      ELSE\n\
   10 CONTINUE\n\
      END IF\n\
      END\n ~ \
unit 0 | - | - | - | \
0 block 0 if(L) then ( 1 do 10 I=1,2 ( 2/10 continue ) ) \
3 else if(M) then ( 4 do 10 I=1,2 ( 5 do 10 J=1,2 ( 6/10 continue ) ) ) \
7 else ( 8/10 continue ) 9 end if | 10 end

# a block IF with no arm but one, with empty arms, with a chain of ELSE IF without ELSE
      IF (I .GT. 0) THEN\n\
      END IF\n\
      IF (L) THEN\n\
      ELSE\n\
      END IF\n\
      IF (I .EQ. 1) THEN\n\
      J = 1\n\
      ELSE IF (I .EQ. 2) THEN\n\
      J = 2\n\
      K = 2\n\
      ELSEIF(I.EQ.3)THEN\n\
      ELSE IF (I .EQ. 4) THEN\n\
      J = 4\n\
      ENDIF\n\
      END\n ~ \
unit 0 | - | - | - | 0 block 0 if({I gt 0}) then ( - ) 1 end if; \
2 block 2 if(L) then ( - ) 3 else ( - ) 4 end if; \
5 block 5 if({I eq 1}) then ( 6 J = 1 ) 7 else if({I eq 2}) then ( 8 J = 2; 9 K = 2 ) \
10 else if({I eq 3}) then ( - ) 11 else if({I eq 4}) then ( 12 J = 4 ) 13 end if | 14 end

# block IFs in arms
      IF (A) THEN\n\
      IF (B) THEN\n\
      I = 1\n\
      ELSE\n\
      I = 2\n\
      END IF\n\
      ELSE\n\
      I = 3\n\
      IF (C) THEN\n\
      IF (D) THEN\n\
      END IF\n\
      ELSE IF (E) THEN\n\
      I = 4\n\
      END IF\n\
      END IF\n\
      END\n ~ \
unit 0 | - | - | - | \
0 block 0 if(A) then ( 1 block 1 if(B) then ( 2 I = 1 ) 3 else ( 4 I = 2 ) 5 end if ) \
6 else ( 7 I = 3; 8 block 8 if(C) then ( 9 block 9 if(D) then ( - ) 10 end if ) \
11 else if(E) then ( 12 I = 4 ) 13 end if ) 14 end if | 15 end

# IF in DOs in IF in DO in IF
      IF (A) THEN\n\
      DO 10 I = 1, 2\n\
      IF (B) THEN\n\
      DO 20 J = 1, 2\n\
      DO 20 K = 1, 2\n\
      IF (C) THEN\n\
      STOP\n\
      END IF\n\
   20 CONTINUE\n\
      ELSE\n\
   30 FORMAT (I5)\n\
      END IF\n\
   10 L = 1\n\
      END IF\n\
      END\n ~ \
unit 0 | - | 10/30 format: (1i5) | - | \
0 block 0 if(A) then ( 1 do 10 I=1,2 ( 2 block 2 if(B) then ( 3 do 20 J=1,2 ( 4 do 20 K=1,2 ( \
5 block 5 if(C) then ( 6 stop ) 7 end if; 8/20 continue ) ) ) 9 else ( - ) 11 end if; 12/10 L = 1 ) ) 13 end if | 14 end

# the label of END IF, also that of an open DO, which it doesn't end
      IF (L) THEN\n\
      GO TO 10\n\
   10 END IF\n\
      DO 20 I = 1, 2\n\
      IF (L) THEN\n\
   20 ELSE\n\
   20 END IF\n\
   20 CONTINUE\n\
      END\n ~ \
unit 0 | - | - | - | 0 block 0 if(L) then ( 1 goto 10 ) 2/10 end if; \
3 do 20 I=1,2 ( 4 block 4 if(L) then ( - ) 5/20 else ( - ) 6/20 end if; 7/20 continue ) | 8 end

# the label of END
      GO TO 99\n\
   99 END\n ~ \
unit 0 | - | - | - | 0 goto 99 | 1/99 end

# FORMAT and DATA between executable statements are no items, and end no DO
      PROGRAM T\n\
      I = 1\n\
   10 FORMAT (1X, I5)\n\
      DO 20 J = 1, 2\n\
      DATA K /7/, L /8/\n\
   20 FORMAT ('TEXT')\n\
      IF (L) THEN\n\
      DATA M /9/\n\
      ELSE\n\
   30 FORMAT (A)\n\
      END IF\n\
   20 CONTINUE\n\
   20 DATA N /10/\n\
      END\n ~ \
unit 0 | 0 program T | \
2/10 format: (1x,1i5); 4 data: K/7/ L/8/; 5/20 format: ("TEXT"); 7 data: M/9/; 9/30 format: (1a); 12/20 data: N/10/ | - | \
1 I = 1; 3 do 20 J=1,2 ( 6 block 6 if(L) then ( - ) 8 else ( - ) 10 end if; 11/20 continue ) | 13 end

# the order of declarations: IMPLICIT and PARAMETER behind one another, FORMAT and DATA before them, statement functions among them
      SUBROUTINE S(A, N)\n\
   10 FORMAT (I5)\n\
      IMPLICIT INTEGER (A)\n\
      PARAMETER (M = 3)\n\
      DATA K /1/\n\
      IMPLICIT LOGICAL (L), INTEGER (E)\n\
      PARAMETER (M2 = M)\n\
      INTEGER A(M2)\n\
      F(I) = I + M\n\
      DIMENSION B(M)\n\
      PARAMETER (M3 = 4)\n\
      COMMON /C/ D\n\
      G() = 1\n\
      SAVE\n\
      I = F(1) + G()\n\
      END\n ~ \
unit 0 | 0 subroutine S[A,N] | \
1/10 format: (1i5); 2 implicit: integer[A]; 3 parameter: M=3; 4 data: K/1/; 5 implicit: logical[L] integer[E]; \
6 parameter: M2=M; 7 integer: A[M2]; 9 dimension: B[M]; 10 parameter: M3=4; 11 common: /C/ D; 13 save: | \
8 F[I] := {I+M}; 12 G[] := 1 | 14 I = {F[1]+G[]} | 15 end

# PARAMETER isn't refused behind other statements that have its name
      INTEGER N, M\n\
      EXTERNAL N\n\
      INTRINSIC N\n\
      COMMON /N/ N\n\
      DIMENSION N(2)\n\
      SAVE N, /N/\n\
      EQUIVALENCE (N, K), (N(1), L)\n\
      F(N, K) = N + K\n\
      PARAMETER (N = 3, M = N)\n\
      END\n ~ \
unit 0 | - | \
0 integer: N M; 1 external: N; 2 intrinsic: N; 3 common: /N/ N; 4 dimension: N[2]; 5 save: N /N/; \
6 equivalence: (N,K) (N[1],L); 8 parameter: N=3 M=N | 7 F[N,K] := {N+K} | - | 9 end

# nor behind a use in another unit, nor before its own
      INTEGER A(N)\n\
      END\n\
      SUBROUTINE S(N)\n\
      PARAMETER (M = 3)\n\
      INTEGER N(M)\n\
      END\n\
      PARAMETER (N = 3)\n\
      END\n ~ \
unit 0 | - | 0 integer: A[N] | - | - | 1 end & \
unit 2 | 2 subroutine S[N] | 3 parameter: M=3; 4 integer: N[M] | - | - | 5 end & \
unit 6 | - | 6 parameter: N=3 | - | - | 7 end

# elements of arrays that a type statement, DIMENSION or COMMON declares
      INTEGER A(10), B\n\
      LOGICAL L(2)\n\
      CHARACTER*4 C(3)\n\
      DIMENSION D(4)\n\
      COMMON E(5) /X/ F, G(6)\n\
      A(I) = 1\n\
      L(I) = .TRUE.\n\
      C(I) = 'A'\n\
      D(I) = D(J)\n\
      E(I) = 1\n\
      G(I) = 1\n\
      END\n ~ \
unit 0 | - | 0 integer: A[10] B; 1 logical: L[2]; 2 character*4: C[3]; 3 dimension: D[4]; 4 common: // E[5] /X/ F G[6] | - | \
5 A[I] = 1; 6 L[I] = true; 7 C[I] = "A"; 8 D[I] = D[J]; 9 E[I] = 1; 10 G[I] = 1 | 11 end

# statement functions: the name is declared without dimensions, or not at all
      INTEGER F, A(2)\n\
      COMMON /X/ G\n\
      CHARACTER*8 H\n\
      EXTERNAL Z\n\
      F(I) = I\n\
      G(I, J, K) = I*J + K\n\
      H(A) = A//'B'\n\
      B() = .TRUE.\n\
      E(X) = F(X) + A(1)\n\
      I = F(1)\n\
      END\n ~ \
unit 0 | - | 0 integer: F A[2]; 1 common: /X/ G; 2 character*8: H; 3 external: Z | \
4 F[I] := I; 5 G[I,J,K] := {{I*J}+K}; 6 H[A] := {A//"B"}; 7 B[] := true; 8 E[X] := {F[X]+A[1]} | 9 I = F[1] | 10 end

# behind the first executable statement, and what isn't of the form
      F(I) = I\n\
      CONTINUE\n\
      F(I) = I\n\
      END\n\
      A(1) = 1\n\
      F(I) = I\n\
      END\n\
      C(I)(1:2) = 'AB'\n\
      F(I) = I\n\
      END\n\
      B = 1\n\
      F(I) = I\n\
      END\n ~ \
unit 0 | - | - | 0 F[I] := I | 1 continue; 2 F[I] = I | 3 end & \
unit 4 | - | - | - | 4 A[1] = 1; 5 F[I] = I | 6 end & \
unit 7 | - | - | - | 7 C[I]<1:2> = "AB"; 8 F[I] = I | 9 end & \
unit 10 | - | - | - | 10 B = 1; 11 F[I] = I | 12 end

# behind DATA and FORMAT; in a block IF or under a logical IF there is none
      DATA I /1/\n\
   10 FORMAT (I5)\n\
      F(I) = I\n\
      IF (L) THEN\n\
      F(I) = I\n\
      END IF\n\
      END\n\
      IF (L) F(I) = I\n\
      F(I) = I\n\
      END\n ~ \
unit 0 | - | 0 data: I/1/; 1/10 format: (1i5) | 2 F[I] := I | 3 block 3 if(L) then ( 4 F[I] = I ) 5 end if | 6 end & \
unit 7 | - | - | - | 7 if(L) F[I] = I; 8 F[I] = I | 9 end

# an element of an array is the first executable statement, behind which there is no statement function
      INTEGER A(10)\n\
      F(I) = I\n\
      A(I) = 1\n\
      G(I) = I\n\
      END\n ~ \
unit 0 | - | 0 integer: A[10] | 1 F[I] := I | 2 A[I] = 1; 3 G[I] = I | 4 end

# arrays of other units don't count
      INTEGER A(10)\n\
      A(I) = 1\n\
      END\n\
      A(I) = 1\n\
      END\n\
      A(I) = 1\n\
      END\n\
      SUBROUTINE S\n\
      DIMENSION A(10)\n\
      A(I) = 1\n\
      END\n ~ \
unit 0 | - | 0 integer: A[10] | - | 1 A[I] = 1 | 2 end & \
unit 3 | - | - | 3 A[I] := 1 | - | 4 end & \
unit 5 | - | - | 5 A[I] := 1 | - | 6 end & \
unit 7 | 7 subroutine S[] | 8 dimension: A[10] | - | 9 A[I] = 1 | 10 end

# declarations behind a statement function
      A(I) = I\n      INTEGER A, K(2)\n      END\n ~ unit 0 | - | 1 integer: A K[2] | 0 A[I] := I | - | 2 end

# IMPLICIT behind a statement function, which is no declaration
      F(I) = I\n      IMPLICIT INTEGER (A)\n      END\n ~ unit 0 | - | 1 implicit: integer[A] | 0 F[I] := I | - | 2 end

# variables with names of keywords nest nothing
      ELSE = 1\n\
      IF (L) = 2\n\
      END IF = 3\n\
      END = 4\n\
      DO 10 I = 1\n\
      RETURN = 5\n\
      PROGRAM T = 6\n\
      INTEGER K = 7\n\
      END\n ~ \
unit 0 | - | - | - | \
0 ELSE = 1; 1 IF[L] = 2; 2 ENDIF = 3; 3 END = 4; 4 DO10I = 1; 5 RETURN = 5; 6 PROGRAMT = 6; 7 INTEGERK = 7 | 8 end

# jumps into and out of constructs, back and forth, and to labels that aren't there: targets aren't looked at
      GO TO 20\n\
      DO 10 I = 1, 2\n\
   20 GO TO (10, 20, 77), I\n\
      IF (I) 20, 30, 77\n\
   10 READ (5, 40, ERR=77, END=10) I\n\
   30 STOP\n\
      END\n ~ \
unit 0 | - | - | - | 0 goto 20; \
1 do 10 I=1,2 ( 2/20 goto [10,20,77] I; 3 if(I) 20,30,77; 4/10 read(unit 5,format 40,err 77,end 10) I ); 5/30 stop | 6 end

# RETURN in subprograms
      SUBROUTINE S\n\
      IF (L) RETURN\n\
      DO 10 I = 1, 2\n\
   10 IF (M) RETURN\n\
      RETURN\n\
      END\n\
      FUNCTION F()\n\
      RETURN\n\
      END\n ~ \
unit 0 | 0 subroutine S[] | - | - | 1 if(L) return; 2 do 10 I=1,2 ( 3/10 if(M) return ); 4 return | 5 end & \
unit 6 | 6 function F[] | - | - | 7 return | 8 end

# a stock count, as it was written in 1984
C     STOCK COUNT, 1984\n\
      PROGRAM STOCK\n\
      INTEGER QTY(100), TOTAL\n\
      CHARACTER*8 ITEM\n\
      COMMON /LOT/ QTY, N\n\
C     DOUBLE IT\n\
      IDBL(K) = 2 * K\n\
      N = 0\n\
*     READ UNTIL THE END\n\
   10 READ (5, 900, END=30) ITEM, K\n\
  900 FORMAT (A8, I5)\n\
      IF (K) 10, 10, 20\n\
   20 N = N + 1\n\
      QTY(N) = IDBL(K)\n\
      IF (N .LT. 100) GO TO 10\n\
\n\
C     SUM UP\n\
   30 DO 40 I = 1, N\n\
      IF (QTY(I) .EQ. 0) GO TO 40\n\
      TOTAL = TOTAL + QTY(I)\n\
   40 CONTINUE\n\
      WRITE (6, 910) N, TOTAL\n\
  910 FORMAT (1X, I5, I8)\n\
      END\n ~ \
unit 0:2 | 0:2 program STOCK | \
1:3 integer: QTY[100] TOTAL; 2:4 character*8: ITEM; 3:5 common: /LOT/ QTY N; 7:11/900 format: (1a8,1i5); \
17:23/910 format: (1x,1i5,1i8) | 4:7 IDBL[K] := {2*K} | \
5:8 N = 0; 6:10/10 read(unit 5,format 900,end 30) ITEM,K; 8:12 if(K) 10,10,20; 9:13/20 N = {N+1}; 10:14 QTY[N] = IDBL[K]; \
11:15 if({N lt 100}) goto 10; \
12:18/30 do 40 I=1,N ( 13:19 if({QTY[I] eq 0}) goto 40; 14:20 TOTAL = {TOTAL+QTY[I]}; 15:21/40 continue ); \
16:22 write(unit 6,format 910) N,TOTAL | 18:24 end
"#;

/// The file of examples/limits.f.
pub const EDITOR: &str = r"C     Limits of the editor, which other programs read
      PROGRAM LIMITS
C     lines and columns
      MaxLin = 66
      MAXCOL = MAXLIN + 00066

*     the least and the greatest integer
      MAXINT = 2147483647
      MININT = -MAXINT - 1
      NFILES = 1
      LINENO = NFILES - 1
      NFILES = NFILES + 3
      STOP
      END
";

/// The file of examples/stock.f: several units, with constructs inside one another.
pub const STOCK: &str = r"C     STOCK COUNT
      PROGRAM STOCK
      INTEGER QTY(100), TOTAL
      CHARACTER*8 ITEM
      COMMON /LOT/ QTY, N
C     DOUBLE IT
      IDBL(K) = 2 * K
      TOTAL = 0
   10 READ (5, 900, END=30) ITEM, K
  900 FORMAT (A8, I5)
      IF (K .LE. 0) THEN
      GO TO 10
      ELSE IF (ITEM .EQ. 'IT''S') THEN
      DO 20 I = 1, N
      DO 20 J = I, N
      IF (QTY(I) .EQ. QTY(J)) GO TO 20
      QTY(I) = IDBL(K)
   20 CONTINUE
      ELSE
      CALL ADD(K)
      END IF
      IF (N .LT. 100) GO TO 10
   30 WRITE (6, 910) N, (QTY(I), I = 1, N)
  910 FORMAT (1X, 'TOTAL', I8, 2(3H IS, I5))
      END
      SUBROUTINE ADD(K)
      COMMON /LOT/ QTY(100), N
      INTEGER QTY
      N = N + 1
      QTY(N) = K
     1  - 1
      IF (N .GE. 100) RETURN
      END
      BLOCK DATA
      COMMON /LOT/ QTY(100), N
      INTEGER QTY
      DATA N /0/
      END
";
