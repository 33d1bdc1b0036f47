// Statements by themselves, and what each is read as.

/// A file of one statement; what is said of it: its tree in the words of `forms.rt`, or number and name of its refusal.
pub const FORMS: &str = r#"
# PROGRAM
      PROGRAM T ~ program T
      programlimits_of_the_editor_number_one ~ program LIMITS_OF_THE_EDITOR_NUMBER_ONE
      PROGRAM LIMITS_OF_THE_EDITOR_NUMBER_ONE1 ~ 10 LIMITS_OF_THE_EDITOR_NUMBER_ONE
      PROGRAM ~ 7 PROGRAM
      PROGRAM T(A) ~ 7 PROGRAMT(A)
      PROGRAM 1T ~ 7 PROGRAM1T
      PROGRAM T, U ~ 7 PROGRAMT,U

# SUBROUTINE
      SUBROUTINE S ~ subroutine S[]
      SUBROUTINE S() ~ subroutine S[]
      SUBROUTINE S(A, B, C) ~ subroutine S[A,B,C]
      S U B R O U T I N E S ( A ) ~ subroutine S[A]
      SUBROUTINE S(*) ~ 8 RETURN
      SUBROUTINE S(A, *, B) ~ 8 RETURN
      SUBROUTINE \32{S}(*) ~ 8 RETURN
      SUBROUTINE \32{S}(A) ~ 10 \31{S}
      SUBROUTINE S(1) ~ 7 SUBROUTINES(
      SUBROUTINE S(A,) ~ 7 SUBROUTINES(
      SUBROUTINE S(A)(B) ~ 7 SUBROUTINES(
      SUBROUTINE S(A(1)) ~ 7 SUBROUTINES(

# FUNCTION
      FUNCTION F() ~ function F[]
      FUNCTION F(A, B) ~ function F[A,B]
      INTEGER FUNCTION F(A) ~ integer function F[A]
      integerfunctionf(a,b) ~ integer function F[A,B]
      LOGICAL FUNCTION F() ~ logical function F[]
      CHARACTER FUNCTION F() ~ character function F[]
      CHARACTER*8 FUNCTION F(A) ~ character*8 function F[A]
      CHARACTER*8FUNCTIONF(A,B) ~ character*8 function F[A,B]
      CHARACTER*(N+1) FUNCTION F(A) ~ character*{N+1} function F[A]
      CHARACTER*(*) FUNCTION F(A) ~ 8 LENGTH
      INTEGER*4 FUNCTION F(A) ~ 8 LENGTH
      LOGICAL*(1) FUNCTION F(A) ~ 8 LENGTH
      CHARACTER*(1.5) FUNCTION F() ~ 8 CONSTANT
      CHARACTER*2147483648 FUNCTION F() ~ 9 2147483648
      FUNCTION F(*) ~ 8 RETURN
      FUNCTION F(NAME_OF_32_CHARACTERS_IN_ALL_XYZ) ~ 10 NAME_OF_32_CHARACTERS_IN_ALL_XY
      INTEGER*4 FUNCTION F(NAME_OF_32_CHARACTERS_IN_ALL_XYZ) ~ 8 LENGTH
      REAL FUNCTION F(A) ~ 8 REAL
      REAL*8 FUNCTION F() ~ 8 REAL
      DOUBLE PRECISION FUNCTION F(A) ~ 8 DOUBLEPRECISION
      COMPLEX FUNCTION F() ~ 8 COMPLEX
      FUNCTION F ~ 7 FUNCTIONF
      FUNCTION F(1) ~ 7 FUNCTIONF(1)
      INTEGER FUNCTION F(A)X ~ 7 INTEGERFUNCT

# a type and a name that begins with FUNCTION
      INTEGER FUNCTION F ~ integer: FUNCTIONF
      INTEGER FUNCTION F(1) ~ integer: FUNCTIONF[1]
      INTEGER FUNCTION F(A, *) ~ integer: FUNCTIONF[A,*]
      CHARACTER*8, FUNCTION F(A) ~ character*8: FUNCTIONF[A]

# BLOCK DATA
      BLOCK DATA ~ block data
      BLOCK DATA B ~ block data B
      B L O C K D A T A B L O C K ~ block data BLOCK
      BLOCK DATA 5 ~ 7 BLOCKDATA5
      BLOCK DATA B() ~ 7 BLOCKDATAB()

# IMPLICIT
      IMPLICIT INTEGER (A) ~ implicit: integer[A]

      IMPLICIT INTEGER (A, C-F), LOGICAL (L), CHARACTER*8 (X-Z) ~ \
implicit: integer[A,C-F] logical[L] character*8[X-Z]
      IMPLICITCHARACTER*(N)(C),CHARACTER(D) ~ implicit: character*N[C] character[D]
      IMPLICIT REAL (A-H) ~ 8 REAL
      IMPLICIT REAL*8 (A-H, O-Z) ~ 8 REAL
      IMPLICIT INTEGER (I), DOUBLE PRECISION (D) ~ 8 DOUBLEPRECISION
      IMPLICIT COMPLEX (C), LOGICAL (L) ~ 8 COMPLEX
      IMPLICIT INTEGER*4 (I) ~ 8 LENGTH
      IMPLICIT LOGICAL*1 (L), REAL (X) ~ 8 LENGTH
      IMPLICIT CHARACTER*1.5 (C) ~ 8 CONSTANT
      IMPLICIT CHARACTER*99999999999 (C) ~ 9 99999999999
      IMPLICIT NONE ~ 8 NONE
      implicit none (type, external) ~ 8 NONE
      IMPLICIT INTEGER ~ 7 IMPLICITINTE
      IMPLICIT INTEGER () ~ 7 IMPLICITINTE
      IMPLICIT INTEGER (AB) ~ 7 IMPLICITINTE
      IMPLICIT INTEGER (A-) ~ 7 IMPLICITINTE
      IMPLICIT INTEGER (A-C-E) ~ 7 IMPLICITINTE
      IMPLICIT REAL ~ 7 IMPLICITREAL
      IMPLICIT (A) ~ 7 IMPLICIT(A)
      IMPLICIT INTEGERS (A) ~ 7 IMPLICITINTE

# PARAMETER
      PARAMETER (N = 3) ~ parameter: N=3

      PARAMETER (N=3, M = N*2+1, T='A', L = .NOT. .TRUE.) ~ \
parameter: N=3 M={{N*2}+1} T="A" L={not true}
      PARAMETER N = 3 ~ PARAMETERN = 3
      PARAMETER (X = 1.5) ~ 8 CONSTANT
      PARAMETER (L = .TRUE., C = (1.0, 2.0)) ~ 8 CONSTANT
      PARAMETER (N = 2147483648) ~ 9 2147483648
      PARAMETER (N 3) ~ 7 PARAMETER(N3
      PARAMETER () ~ 7 PARAMETER()
      PARAMETER (N = 3, M) ~ 7 PARAMETER(N=
      PARAMETER (N = M = 3) ~ 7 PARAMETER(N=
      PARAMETER (N = 3) = 4 ~ 7 PARAMETER(N=
      PARAMETER (N(1) = 3) ~ 7 PARAMETER(N(

# INTEGER and LOGICAL
      INTEGER I ~ integer: I

      INTEGER I, A(10), B(0:N, -1:1), C(2, *), D(2:*) ~ \
integer: I A[10] B[0:N,{-1}:1] C[2,*] D[2:*]
      INTEGER A(1,2,3,4,5,6,7) ~ integer: A[1,2,3,4,5,6,7]
      INTEGER A(1,2,3,4,5,6,7,8) ~ 7 INTEGERA(1,2
      LOGICAL L, M(3) ~ logical: L M[3]
      LOGICAL L = .TRUE. ~ LOGICALL = true
      INTEGER*4 I ~ 8 LENGTH
      INTEGER*2, I ~ 8 LENGTH
      INTEGER*(*) I ~ 8 LENGTH
      INTEGER*1.5 I ~ 8 LENGTH
      LOGICAL*1 L(10) ~ 8 LENGTH
      INTEGER*4 A(99999999999) ~ 8 LENGTH
      INTEGER A(1.5) ~ 8 CONSTANT
      INTEGER A(2147483648) ~ 9 2147483648
      INTEGER \32{I}(2147483648) ~ 9 2147483648
      INTEGER ~ 7 INTEGER
      INTEGER, I ~ 7 INTEGER,I
      INTEGER I, ~ 7 INTEGERI,
      INTEGER A*4 ~ 7 INTEGERA*4
      INTEGER A() ~ 7 INTEGERA()
      INTEGER A(:5) ~ 7 INTEGERA(:5)
      INTEGER A(1:2:3) ~ 7 INTEGERA(1:2
      INTEGER A(1)(2) ~ 7 INTEGERA(1)(
      LOGICAL L, M = 3 ~ 7 LOGICALL,M=3

# CHARACTER
      CHARACTER C ~ character: C
      CHARACTER*8HELLO ~ character*8: HELLO
      CHARACTER*3HABC ~ character*3: HABC
      CHARACTER*8, A, B(10)*4, C*(*), D*(N+1) ~ character*8: A B[10]*4 C** D*{N+1}
      CHARACTER*(*) C ~ character**: C
      CHARACTER*(N), C(5) ~ character*N: C[5]
      character*0 c ~ character*0: C
      CHARACTER*1.5 A ~ 8 CONSTANT
      CHARACTER*1. A ~ 8 CONSTANT
      CHARACTER*.5 A ~ 8 CONSTANT
      CHARACTER*(1.5) A ~ 8 CONSTANT
      CHARACTER A*1.5 ~ 8 CONSTANT
      CHARACTER*99999999999 A ~ 9 99999999999
      CHARACTER A*2147483648 ~ 9 2147483648
      CHARACTER ~ 7 CHARACTER
      CHARACTER, C ~ 7 CHARACTER,C
      CHARACTER*N C ~ 7 CHARACTER*NC
      CHARACTER C*N ~ 7 CHARACTERC*N
      CHARACTER C*4(5) ~ 7 CHARACTERC*4
      CHARACTER*() C ~ 7 CHARACTER*()

# REAL, DOUBLE PRECISION and COMPLEX
      REAL X ~ 8 REAL
      REAL ~ 8 REAL
      REAL X, 'AB ~ 8 REAL
      DOUBLE PRECISION D(10) ~ 8 DOUBLEPRECISION
      COMPLEX*16 Z ~ 8 COMPLEX
      REAL = 3 ~ REAL = 3

# DIMENSION
      DIMENSION A(10) ~ dimension: A[10]
      DIMENSION A(10), B(-5:5, 0:N*2) ~ dimension: A[10] B[{-5}:5,0:{N*2}]
      DIMENSION A(*) ~ dimension: A[*]
      DIMENSION A(1.5) ~ 8 CONSTANT
      DIMENSION A ~ 7 DIMENSIONA
      DIMENSION A(10) B(5) ~ 7 DIMENSIONA(1
      DIMENSION A(10), B ~ 7 DIMENSIONA(1
      DIMENSION A(1,2,3,4,5,6,7,8) ~ 7 DIMENSIONA(1

# COMMON
      COMMON A ~ common: // A
      COMMON A, /B/ C ~ common: // A /B/ C
      COMMON A /B/ C ~ common: // A /B/ C
      COMMON /B/ I, J(10) /C/ K, // L, M ~ common: /B/ I J[10] /C/ K // L M
      COMMON / / X, /B/ Y, /B/ Z ~ common: // X /B/ Y /B/ Z
      COMMON A B ~ common: // AB
      COMMON /\32{B}/ A(1.5) ~ 8 CONSTANT
      COMMON /\32{B}/ A ~ 10 \31{B}
      COMMON ~ 7 COMMON
      COMMON /B/ ~ 7 COMMON/B/
      COMMON A, , B ~ 7 COMMONA,,B
      COMMON A, ~ 7 COMMONA,
      COMMON /B/ A, /C/ ~ 7 COMMON/B/A,/
      COMMON /1/ A ~ 7 COMMON/1/A
      COMMON , A ~ 7 COMMON,A
      COMMON A*4 ~ 7 COMMONA*4

# EQUIVALENCE
      EQUIVALENCE (A, B) ~ equivalence: (A,B)

      EQUIVALENCE (A, B(1), C(2)(3:4)), (D(1:2), E) ~ \
equivalence: (A,B[1],C[2]<3:4>) (D<1:2>,E)
      EQUIVALENCE (A(1.5), B) ~ 8 CONSTANT
      EQUIVALENCE (A) ~ 7 EQUIVALENCE(
      EQUIVALENCE (A, B), (C) ~ 7 EQUIVALENCE(
      EQUIVALENCE A, B ~ 7 EQUIVALENCEA
      EQUIVALENCE (A, B+1) ~ 7 EQUIVALENCE(
      EQUIVALENCE (A, 1) ~ 7 EQUIVALENCE(
      EQUIVALENCE (A, F()) ~ 7 EQUIVALENCE(
      EQUIVALENCE (A(*10), B) ~ 7 EQUIVALENCE(

# EXTERNAL, INTRINSIC and SAVE
      EXTERNAL F ~ external: F
      EXTERNAL F, G, H ~ external: F G H
      EXTERNAL ~ 7 EXTERNAL
      EXTERNAL F(1) ~ 7 EXTERNALF(1)
      INTRINSIC ABS ~ intrinsic: ABS
      INTRINSIC ABS, MOD ~ intrinsic: ABS MOD
      INTRINSIC MOD, ~ 7 INTRINSICMOD
      INTRINSIC \32{M} ~ 10 \31{M}
      SAVE ~ save:
      SAVE A, /B/, C ~ save: A /B/ C
      SAVE /B/ ~ save: /B/
      SAVE // ~ 7 SAVE//
      SAVE A(1) ~ 7 SAVEA(1)
      SAVE A, ~ 7 SAVEA,

# DATA
      DATA I/1/ ~ data: I/1/
      DATA A/2*3, N*4, M/ ~ data: A/2*3,N*4,M/
      DATA A, B /1, -2/, C /'X'/ D /.TRUE./ ~ data: A,B/1,{-2}/ C/"X"/ D/true/

      DATA A(1), C(2:3), D(1)(:2) /1, 'A', 'B'/ ~ \
data: A[1],C<2:3>,D[1]<:2>/1,"A","B"/
      DATA (A(I), I=1,10) /10*0/ ~ data: (A[I];I=1,10)/10*0/

      DATA ((A(I,J), I=1,2), B(J), J=1,N,2), C /9*+1/ ~ \
data: ((A[I,J];I=1,2),B[J];J=1,N,2),C/9*{+1}/

      DATAA(1)/1/B(2)/2/(C(I),I=1,2)/3,4/ ~ \
data: A[1]/1/ B[2]/2/ (C[I];I=1,2)/3,4/
      DATA A/3*'A/B', ',/', ''''/ ~ data: A/3*"A/B",",/","'"/
      DATA A/N*M, N*-1/ ~ data: A/N*M,N*{-1}/
      DATA A/1.5/ ~ 8 CONSTANT
      DATA A/-1.5E3, 2*.5D0/ ~ 8 CONSTANT
      DATA Z/(1,2)/ ~ 8 CONSTANT
      DATA C/3HA B/ ~ 8 CONSTANT
      DATA A(1.5)/99999999999/ ~ 8 CONSTANT
      DATA I/-2147483648/ ~ 9 2147483648
      DATA \32{A}/99999999999*0/ ~ 9 99999999999
      DATA ~ 7 DATA
      DATA A ~ 7 DATAA
      DATA A// ~ 7 DATAA//
      DATA A/1/, ~ 7 DATAA/1/,
      DATA A/1, ~ 7 DATAA/1,
      DATA A/1,/ ~ 7 DATAA/1,/
      DATA A/-N/ ~ 7 DATAA/-N/
      DATA A/-2*3/ ~ 7 DATAA/-2*3/
      DATA A/2*3*4/ ~ 7 DATAA/2*3*4/
      DATA A/1+2/ ~ 7 DATAA/1+2/
      DATA A/(1)/ ~ 7 DATAA/(1)/
      DATA A/.NOT..TRUE./ ~ 7 DATAA/.NOT..
      DATA A/B(1)/ ~ 7 DATAA/B(1)/
      DATA A+B/1/ ~ 7 DATAA+B/1/
      DATA F()/1/ ~ 7 DATAF()/1/
      DATA (I, I=1,3)/3*0/ ~ 7 DATA(I,I=1,3
      DATA (A(I), I=1)/3*0/ ~ 7 DATA(A(I),I=
      DATA (A(I))/3*0/ ~ 7 DATA(A(I))/3

# FORMAT: numbers, letters, characters and blanks
   10 FORMAT () ~ format: ()
   10 FORMAT (I5) ~ format: (1i5)
   10 FORMAT (I5, 3I4, 2I6.3, I4.0) ~ format: (1i5,3i4,2i6.3,1i4.0)
   10 FORMAT (A, 2A, A8, 3A10) ~ format: (1a,2a,1a8,3a10)
   10 FORMAT (L1, 2L5) ~ format: (1l1,2l5)
   10 FORMAT (1X, 10X) ~ format: (1x,10x)
   10 FORMAT ('IT''S', 3HA B, 1H') ~ format: ("IT'S","A B","'")
   10 format (i5, 'a b', 2hc ) ~ format: (1i5,"a b","c ")
   10 FOR MAT (I 1 0) ~ format: (1i10)
   10 FORMAT(I9999,9999X,9999(A1)) ~ format: (1i9999,9999x,9999(1a1))
   10 FORMAT (I00005, 00002X) ~ format: (1i5,2x)

# FORMAT: records, groups and commas
   10 FORMAT (/) ~ format: (/)
   10 FORMAT (I5 / I6, / , A //) ~ format: (1i5,/,1i6,/,1a,/,/)
   10 FORMAT (2(I5, 3(A, 1X)), (L1)) ~ format: (2(1i5,3(1a,1x)),1(1l1))
   10 FORMAT (1X,2(/)/'A'/2HBC/) ~ format: (1x,2(/),/,"A",/,"BC",/)

   10 FORMAT (1X, 'A CONSTANT THAT STANDS ON 2 LINES OF THE STATEMENT,\n\
     1AND ITS END') ~ \
format: (1x,"A CONSTANT THAT STANDS ON 2 LINES OF THE STATEMENT,\2{ }AND ITS END")

# FORMAT: descriptors that are refused
   10 FORMAT (E10.3) ~ 8 EDIT
   10 FORMAT (1X, F8.2) ~ 8 EDIT
   10 FORMAT (2D12.4) ~ 8 EDIT
   10 FORMAT (G10.3E2) ~ 8 EDIT
   10 FORMAT (F) ~ 8 EDIT
   10 FORMAT (3(F8.2, 1X), I5) ~ 8 EDIT
   10 FORMAT (1P, I5) ~ 8 EDIT
   10 FORMAT (1PE10.3) ~ 8 EDIT
   10 FORMAT (-2P F8.2) ~ 8 EDIT
   10 FORMAT (1P2I5) ~ 8 EDIT
   10 FORMAT (T10, I5) ~ 8 EDIT
   10 FORMAT (TL5, TR5) ~ 8 EDIT
   10 FORMAT (SP, I5, SS, I5, S) ~ 8 EDIT
   10 FORMAT (BN, I5) ~ 8 EDIT
   10 FORMAT (BZ) ~ 8 EDIT
   10 FORMAT (I5:I6) ~ 8 EDIT
   10 FORMAT (:) ~ 8 EDIT
   10 FORMAT (I5, :, I6) ~ 8 EDIT

# FORMAT: no formats
   10 FORMAT ~ 7 FORMAT
   10 FORMAT (I10000) ~ 7 FORMAT(I1000
   10 FORMAT (I0) ~ 7 FORMAT(I0)
   10 FORMAT (I) ~ 7 FORMAT(I)
   10 FORMAT (I5.) ~ 7 FORMAT(I5.)
   10 FORMAT (I5.6) ~ 7 FORMAT(I5.6)
   10 FORMAT (0I5) ~ 7 FORMAT(0I5)
   10 FORMAT (-1I5) ~ 7 FORMAT(-1I5)
   10 FORMAT (X) ~ 7 FORMAT(X)
   10 FORMAT (0X) ~ 7 FORMAT(0X)
   10 FORMAT (L) ~ 7 FORMAT(L)
   10 FORMAT (Z5) ~ 7 FORMAT(Z5)
   10 FORMAT (F8.) ~ 7 FORMAT(F8.)
   10 FORMAT (F8.2, Z5) ~ 7 FORMAT(F8.2,
   10 FORMAT (I5 I6) ~ 7 FORMAT(I5I6)
   10 FORMAT (1PE10.3I5) ~ 7 FORMAT(1PE10
   10 FORMAT ('A' 'B') ~ 7 FORMAT('A''B
   10 FORMAT ('A'I5) ~ 7 FORMAT('A'I5
   10 FORMAT (2'A') ~ 7 FORMAT(2'A')
   10 FORMAT ('') ~ 7 FORMAT('')
   10 FORMAT (I5,) ~ 7 FORMAT(I5,)
   10 FORMAT (,I5) ~ 7 FORMAT(,I5)
   10 FORMAT (I5,,I6) ~ 7 FORMAT(I5,,I
   10 FORMAT (2/) ~ 7 FORMAT(2/)
   10 FORMAT (()) ~ 7 FORMAT(())
   10 FORMAT (I5, 2()) ~ 7 FORMAT(I5,2(
   10 FORMAT (I5 ~ 7 FORMAT(I5
   10 FORMAT (I5)) ~ 7 FORMAT(I5))
   10 FORMAT (I5) X ~ 7 FORMAT(I5)X
   10 FORMAT (I5) = 3 ~ 7 FORMAT(I5)=3
   10 FORMAT (5HAB) ~ 7 FORMAT(5HAB)
   10 FORMAT (1H) ~ 7 FORMAT(1H)
   10 FORMAT (0HA) ~ 7 FORMAT(0HA)
      FORMAT (I5) ~ 7 FORMAT(I5)

# assignments and statement functions; a unit of one statement declares no arrays
      I = 1 ~ I = 1
   10 I = 1 ~ I = 1
      i  j  k = 1 2 3 ~ IJK = 123
      A(I, J) = B*C + D ~ A[I,J] := {{B*C}+D}
      A(I, 2) = B*C + D ~ A[I,2] = {{B*C}+D}
      C(1:2) = 'X'//T ~ C<1:2> = {"X"//T}
      C(I)(:J) = ' ' ~ C[I]<:J> = " "
      F() = 1 ~ F[] := 1
      f()=a+b ~ F[] := {A+B}
      F(X, Y) = X + Y ~ F[X,Y] := {X+Y}
      I = 1\61{ }+ 2 ~ I = 1
      I = 1 +\n     1    2 +\n     2    3 ~ I = {{1+2}+3}

# assignments that begin with a keyword
      DO 10 I = 15 ~ DO10I = 15
      DO WHILE = 3 ~ DOWHILE = 3
      END = 3 ~ END = 3
      GO TO 10 = 3 ~ GOTO10 = 3
      READ (5, 10) = 3 ~ READ[5,10] = 3
      WRITE (6)(1:2) = 'X' ~ WRITE[6]<1:2> = "X"
      IF (L) = 3 ~ IF[L] := 3
      IF (L)(1:2) = 'X' ~ IF[L]<1:2> = "X"
      ELSE IF (L) = 3 ~ ELSEIF[L] := 3
      STOP 1 = 2 ~ STOP1 = 2
      DATA (1) = 2 ~ DATA[1] = 2
      PAUSE = 1 ~ PAUSE = 1
      IMPLICIT NONE = 1 ~ IMPLICITNONE = 1
   10 FORMAT = 3 ~ FORMAT = 3
      FORMAT (I5) = 3 ~ FORMAT[I5] := 3

# assignments that are refused
      I = 1.5 ~ 8 CONSTANT
      DO 10 I = 1.5 ~ 8 CONSTANT
      DO 10 I = (1, 5) ~ 8 CONSTANT
      I = F(*10) ~ 8 RETURN
      I = F(*10) + 1.5 ~ 8 RETURN
      I = 2147483648 + 1.5 ~ 8 CONSTANT
      I = 2147483648 ~ 9 2147483648
      \32{I} = 123456789012345 ~ 9 123456789012
      \32{I} = 1 ~ 10 \31{I}
      I == 1 ~ 7 I==1
      I = ~ 7 I=
      = 1 ~ 7 =1
      I = J = K ~ 7 I=J=K
      I, J = 1 ~ 7 I,J=1
      (I) = 1 ~ 7 (I)=1
      5 = I ~ 7 5=I
      A + B = C ~ 7 A+B=C
      A(1)(2) = 3 ~ 7 A(1)(2)=3
      A()(1:2) = 'X' ~ 7 A()(1:2)='X'
      A(*10) = 1 ~ 7 A(*10)=1
      I = 'A' 'B' ~ 7 I='A''B'
      I = 'AB ~ 7 I='AB\7{ }
      I = $ ~ 7 I=$
      I = 1.5 ? ~ 7 I=1.5?

# GO TO
      GO TO 10 ~ goto 10
      GOTO 00010 ~ goto 10
      go to 99999 ~ goto 99999
      GO\n     1 TO\n     2 1 0 ~ goto 10
      GO TO (10, 20, 30), I ~ goto [10,20,30] I
      GO TO (10) I+1 ~ goto [10] {I+1}
      GO TO (10, 20), 1.5 ~ 8 CONSTANT
      GO TO I ~ 8 GOTO
      GO TO I, (10, 20) ~ 8 GOTO
      GO TO I (10) ~ 8 GOTO
      GO TO \32{I} ~ 8 GOTO
      GO TO ~ 7 GOTO
      GO TO 0 ~ 7 GOTO0
      GO TO 123456 ~ 7 GOTO123456
      GO TO 1.5 ~ 7 GOTO1.5
      GO TO (10, 20) ~ 7 GOTO(10,20)
      GO TO (10, 20), ~ 7 GOTO(10,20),
      GO TO (), I ~ 7 GOTO(),I
      GO TO (I), J ~ 7 GOTO(I),J
      GO TO (10, 0), I ~ 7 GOTO(10,0),I
      GO TO I + 1 ~ 7 GOTOI+1
      GO TO I, J ~ 7 GOTOI,J

# arithmetic IF
      IF (I) 10, 20, 30 ~ if(I) 10,20,30
      IF(I-J*2)10,10,00020 ~ if({I-{J*2}}) 10,10,20
      IF (1.5) 10, 20, 30 ~ 8 CONSTANT
      IF (I) 10, 20 ~ 7 IF(I)10,20
      IF (I) 10, 0, 20 ~ 7 IF(I)10,0,20
      IF (I) 10, 20, 30, 40 ~ 7 IF(I)10,20,3
      IF () 10, 20, 30 ~ 7 IF()10,20,30
      IF (I) 10 CONTINUE ~ 7 IF(I)10CONTI

# logical IF
      IF (L) GO TO 10 ~ if(L) goto 10
      IF (A .EQ. B) I = 1 ~ if({A eq B}) I = 1
      if(l)call s(a) ~ if(L) call S[A]
      IF (L) STOP 'A' ~ if(L) stop "A"
      IF (L) CONTINUE ~ if(L) continue
      IF (L) RETURN ~ if(L) return
      IF (L) READ (5, 10) I ~ if(L) read(unit 5,format 10) I
      IF (L) IF (I) 10, 20, 30 ~ if(L) if(I) 10,20,30
      IF (L) THEN = 3 ~ if(L) THEN = 3
      IF (L) THEN I = 3 ~ if(L) THENI = 3
      IF (L) IF (M) = 3 ~ if(L) IF[M] = 3
   10 IF (L) FORMAT (I5) = 1 ~ if(L) FORMAT[I5] = 1
      IF (L) DO 10 I = 1 ~ if(L) DO10I = 1
      IF ((L)) GO TO (10, 20), I ~ if((L)) goto [10,20] I
      IF (X .GT. 1.5) GO TO 10 ~ 8 CONSTANT
      IF (L) X = 1.5 ~ 8 CONSTANT
      IF (L) PAUSE ~ 8 PAUSE
      IF (L) ASSIGN 10 TO I ~ 8 ASSIGN
      IF (L) BACKSPACE 5 ~ 8 BACKSPACE
      IF (L) END FILE 5 ~ 8 ENDFILE
      IF (L) INQUIRE (5, EXIST=M) ~ 8 INQUIRE
      IF (L) GO TO I ~ 8 GOTO
      IF (L) RETURN 1 ~ 8 RETURN
      IF (X .EQ. 1.5) PAUSE ~ 8 CONSTANT
      IF (I .EQ. 2147483648) PAUSE ~ 8 PAUSE
      IF (I .EQ. 2147483648) \32{I} = 1 ~ 9 2147483648
      IF (L) ~ 7 IF(L)
      IF L GO TO 10 ~ 7 IFLGOTO10
      IF () GO TO 10 ~ 7 IF()GOTO10
      IF (L = M) GO TO 10 ~ 7 IF(L=M)GOTO1
      IF (L, M) GO TO 10 ~ 7 IF(L,M)GOTO1
      IF (L)(M) = 1 ~ 7 IF(L)(M)=1
      IF (L) IF (M) GO TO 10 ~ 7 IF(L)IF(M)GO
      IF (L) IF (M) THEN ~ 7 IF(L)IF(M)TH
      IF (L) DO 10 I = 1, 5 ~ 7 IF(L)DO10I=1
      IF (L) ELSE ~ 7 IF(L)ELSE
      IF (L) END IF ~ 7 IF(L)ENDIF
      IF (L) END ~ 7 IF(L)END
      IF (L) INTEGER I ~ 7 IF(L)INTEGER
      IF (L) REAL X ~ 7 IF(L)REALX
      IF (L) ENTRY E ~ 7 IF(L)ENTRYE
      IF (L) SUBROUTINE S ~ 7 IF(L)SUBROUT
      IF (L) F() = 1 ~ 7 IF(L)F()=1
      IF (L) FORMAT (I5) ~ 7 IF(L)FORMAT(
      IF (L) THENX ~ 7 IF(L)THENX
      IF (1.5) X Y ~ 7 IF(1.5)XY

# block IF
      IF (L) THEN ~ if(L) then
      if(a.and..not.b)then ~ if({A and {not B}}) then
      IF (X .GT. 1.5) THEN ~ 8 CONSTANT
      IF (L = 3) THEN ~ 7 IF(L=3)THEN
      ELSE IF (L) THEN ~ else if(L) then
      ELSEIF(A.LT.B)THEN ~ else if({A lt B}) then
      ELSE IF (F(*10)) THEN ~ 8 RETURN
      ELSE IF (L) ~ 7 ELSEIF(L)
      ELSE IF (L) GO TO 10 ~ 7 ELSEIF(L)GOT
      ELSE IF ~ 7 ELSEIF
      ELSE ~ else
      E L S E ~ else
      ELSE X ~ 7 ELSEX
      END IF ~ end if
      endif ~ end if
      END IF X ~ 7 ENDIFX

# DO
      DO 10 I = 1, 5 ~ do 10 I=1,5
      DO 10, I = N, 1, -1 ~ do 10 I=N,1,{-1}
      DO10I=1,(5) ~ do 10 I=1,(5)
      do 00100 i = f(1,2), 3, k*2 ~ do 100 I=F[1,2],3,{K*2}
      DO 10 WHILE = 1, 2 ~ do 10 WHILE=1,2
      DO 10 I = 1.5, 3 ~ 8 CONSTANT
      DO 10 I = 1, 2147483648 ~ 9 2147483648
      DO 10 \32{I} = 1, 5 ~ 10 \31{I}
      DO WHILE (L) ~ 8 WHILE
      DO WHILE ~ 8 WHILE
      DO 10 WHILE (L) ~ 8 WHILE
      DO 10, WHILE (L .EQ. ~ 8 WHILE
      END DO ~ 8 ENDDO
      END DO LOOP ~ 8 ENDDO
      DO ~ 7 DO
      DO 10 ~ 7 DO10
      DO 10 I ~ 7 DO10I
      DO I = 1, 5 ~ 7 DOI=1,5
      DO 0 I = 1, 5 ~ 7 DO0I=1,5
      DO 123456 I = 1, 5 ~ 7 DO123456I=1,
      DO 10 I = 1, 2, 3, 4 ~ 7 DO10I=1,2,3,
      DO 10 I = , 5 ~ 7 DO10I=,5
      DO 10 I = 1, ~ 7 DO10I=1,
      DO 10 X(1) = 1, 5 ~ 7 DO10X(1)=1,5
      DO 10 ,, I = 1, 5 ~ 7 DO10,,I=1,5

# CONTINUE, RETURN, STOP and END
      CONTINUE ~ continue
   10 C O N T I N U E ~ continue
      CONTINUE 5 ~ 7 CONTINUE5
      RETURN ~ return
      RETURN 1 ~ 8 RETURN
      RETURN 1.5 ~ 8 RETURN
      RETURN \32{I} ~ 8 RETURN
      RETURN ) ~ 7 RETURN)
      RETURN 1, 2 ~ 7 RETURN1,2
      STOP ~ stop
      STOP 77 ~ stop 77
      STOP 0 0 0 0 0 ~ stop 00000
      STOP 'IT''S' ~ stop "IT'S"
      STOP 123456 ~ 7 STOP123456
      STOP '' ~ 7 STOP''
      STOP 'A'//'B' ~ 7 STOP'A'//'B'
      STOP I ~ 7 STOPI
      STOP -1 ~ 7 STOP-1
      END ~ end
   10 e n d ~ end
      END 10 ~ 7 END10
      END PROGRAM T ~ 7 ENDPROGRAMT

# CALL
      CALL S ~ call S[]
      CALL S() ~ call S[]

      CALL S(A, 1, 'X', B(2), -C, C(1:2), (D)) ~ \
call S[A,1,"X",B[2],{-C},C<1:2>,(D)]
      C A L L C A L L ~ call CALL[]
      CALL S(*10) ~ 8 RETURN
      CALL S(A, *00010, *20) ~ 8 RETURN
      CALL S(F(*10)) ~ 8 RETURN
      CALL S(1.5, *10) ~ 8 CONSTANT
      CALL S(*10, 1.5) ~ 8 RETURN
      CALL S((1, 2)) ~ 8 CONSTANT
      CALL S(99999999999, 3HABC) ~ 8 CONSTANT
      CALL \32{S}(99999999999) ~ 9 99999999999
      CALL \32{S} ~ 10 \31{S}
      CALL ~ 7 CALL
      CALL 5 ~ 7 CALL5
      CALL S(A,) ~ 7 CALLS(A,)
      CALL S(*0) ~ 7 CALLS(*0)
      CALL S(*I) ~ 7 CALLS(*I)
      CALL S(A=1) ~ 7 CALLS(A=1)
      CALL S(A)(B) ~ 7 CALLS(A)(B)
      CALL S(A) + 1 ~ 7 CALLS(A)+1

# READ
      READ * ~ read *
      READ 10 ~ read 10
      READ 10, I, A(J), C(1:2) ~ read 10: I,A[J],C<1:2>
      READ *, (A(I), I=1,3) ~ read *: (A[I];I=1,3)
      READ '(I5)', I ~ read "(I5)"(1i5): I
      READ (5, 10) ~ read(unit 5,format 10)
      READ (5, 10) I ~ read(unit 5,format 10) I
      READ (*, *) I, J ~ read(unit *,format *) I,J

      READ (UNIT=5, FMT=10, IOSTAT=K, ERR=20, END=30) A, (B(I), I=1,3) ~ \
read(unit 5,format 10,iostat K,err 20,end 30) A,(B[I];I=1,3)

      READ (END=30, FMT='(A)', UNIT=N+1) C ~ \
read(unit {N+1},format "(A)"(1a),end 30) C
      READ (C(1:5), '(I5)') I ~ read(unit C<1:5>,format "(I5)"(1i5)) I
      READ (C, *) I ~ read(unit C,format *) I
      READ (C(3), FMT=*) I ~ read(unit C[3],format *) I

      READ (5, 10) ((A(I,J), I=1,2), B(J), J=1,N,2), C(2:3) ~ \
read(unit 5,format 10) ((A[I,J];I=1,2),B[J];J=1,N,2),C<2:3>
      read(5,10,end=99)i ~ read(unit 5,format 10,end 99) I
      READ (5) I ~ 8 UNFORMATTED
      READ (UNIT) I ~ 8 UNFORMATTED
      READ (UNIT=5, ERR=10) ~ 8 UNFORMATTED
      READ (5, REC=3) I ~ 8 UNFORMATTED
      READ (1.5) I ~ 8 UNFORMATTED
      READ (I), J ~ 8 FORMAT
      READ (5, 10), I ~ 8 FORMAT
      READ N, I ~ 8 FORMAT
      READ (5, N) I ~ 8 FORMAT
      READ (5, FMT=A(1)) I ~ 8 FORMAT
      READ (5, A(1.5)) I ~ 8 FORMAT
      READ (5, 0) I ~ 8 FORMAT
      READ (1.5, N) I ~ 8 CONSTANT
      READ (5, N, REC=3) I ~ 8 FORMAT
      READ (5, 10, REC=3) I ~ 8 CONTROL
      READ (5, 10, IOSTAT=A(1)) I ~ 8 CONTROL
      READ (5, 10, IOSTAT=A(1.5)) I ~ 8 CONTROL
      READ (C(1:2), *) I ~ 8 CONTROL
      READ (FMT=*, UNIT=C(3)(1:2)) I ~ 8 CONTROL
      READ (C(1.5:2), *) I ~ 8 CONTROL
      READ (5, '(E5.1)') X ~ 8 EDIT
      READ (5, 10) A(1.5) ~ 8 CONSTANT
      READ (5, 10) (A(I), I=1,2147483648) ~ 9 2147483648
      READ (\32{I}, 10) J ~ 10 \31{I}
      READ ~ 7 READ
      READ () I ~ 7 READ()I
      READ 10 I ~ 7 READ10I
      READ *I ~ 7 READ*I
      READ (5, 10, 20) I ~ 7 READ(5,10,20
      READ (UNIT=5, 10) I ~ 7 READ(UNIT=5,
      READ (10, UNIT=5) I ~ 7 READ(10,UNIT
      READ (5, IOSTAT=K, 10) I ~ 7 READ(5,IOSTA
      READ (FMT=10) I ~ 7 READ(FMT=10)
      READ (5, 10, FMT=20) I ~ 7 READ(5,10,FM
      READ (5, 10, ERR=20, ERR=30) I ~ 7 READ(5,10,ER
      READ (5, 10, IOSTAT=5) I ~ 7 READ(5,10,IO
      READ (5, 10, ERR=I) J ~ 7 READ(5,10,ER
      READ (5, 10, END=0) J ~ 7 READ(5,10,EN
      READ (5, 'I5') I ~ 7 READ(5,'I5')
      READ (5, FMT, END=20), I ~ 7 READ(5,FMT,E
      READ (5, 10) A + B ~ 7 READ(5,10)A+
      READ (5, 10) 1 ~ 7 READ(5,10)1
      READ (5, 10) (A) ~ 7 READ(5,10)(A
      READ (5, 10) F() ~ 7 READ(5,10)F(
      READ (5, 10) I, ~ 7 READ(5,10)I,
      READ (5, 10) (1, I=1,3) ~ 7 READ(5,10)(1

# WRITE
      WRITE (6, 10) ~ write(unit 6,format 10)

      WRITE (6, 10) (A)+B, (C(I), I=1,3) ~ \
write(unit 6,format 10) {(A)+B},(C[I];I=1,3)
      WRITE (*, *) 'A', 1, -I, F(X) ~ write(unit *,format *) "A",1,{-I},F[X]

      WRITE (6, '(1X, ''A'', I5)') I ~ \
write(unit 6,format "(1X, 'A', I5)"(1x,"A",1i5)) I
      WRITE (FMT=*, UNIT=*) A ~ write(unit *,format *) A

      WRITE (6, FMT=10, IOSTAT=K, ERR=99) A ~ \
write(unit 6,format 10,iostat K,err 99) A
      WRITE (6, ' ( i5 )') I ~ write(unit 6,format " ( i5 )"(1i5)) I
      WRITE (6, '()') ~ write(unit 6,format "()"())
      WRITE (6, '(3Ha b, 1H'')') ~ write(unit 6,format "(3Ha b, 1H')"("a b","'"))

      WRITE (6, 10) ((I*J, I=1,2), J=1,3), ((A), I=1,2) ~ \
write(unit 6,format 10) (({I*J};I=1,2);J=1,3),((A);I=1,2)
      WRITE (6) A ~ 8 UNFORMATTED
      WRITE (6, 10, END=20) A ~ 8 CONTROL
      WRITE (C(1:2), *) 1.5 ~ 8 CONTROL
      WRITE (\32{I}, *, REC=1) ~ 8 CONTROL
      WRITE (6, N) A ~ 8 FORMAT
      WRITE (6, 3HABC) A ~ 8 FORMAT
      WRITE (6, '(I5)'//'X') I ~ 8 FORMAT
      WRITE (6, 123456) I ~ 8 FORMAT
      WRITE (6, '(1X, F5.1)') X ~ 8 EDIT
      WRITE (6, 10) (1, 2) ~ 8 CONSTANT
      WRITE (6, 10) F(*10) ~ 8 RETURN
      WRITE (2147483648, 10) I ~ 9 2147483648
      WRITE ~ 7 WRITE
      WRITE 6 ~ 7 WRITE6
      WRITE *, A ~ 7 WRITE*,A
      WRITE (6, 10), A ~ 7 WRITE(6,10),
      WRITE (6, '(I5)X') I ~ 7 WRITE(6,'(I5
      WRITE (6, '(F5.1, Q)') X ~ 7 WRITE(6,'(F5
      WRITE (6, '') ~ 7 WRITE(6,'')
      WRITE (6, 10) (A, B) ~ 7 WRITE(6,10)(
      WRITE (6, 10) (A, I=1) ~ 7 WRITE(6,10)(
      WRITE (6, 10) (I=1,3) ~ 7 WRITE(6,10)(
      WRITE (6, 10) (I, I=1,3)+1 ~ 7 WRITE(6,10)(
      WRITE (6, 10) (A, I=1,2,3,4) ~ 7 WRITE(6,10)(
      WRITE (6, 10) A B, ~ 7 WRITE(6,10)A

# PRINT
      PRINT * ~ print *
      PRINT 10 ~ print 10
      PRINT 10, A, (B(I), I=1,2) ~ print 10: A,(B[I];I=1,2)
      PRINT '(I5)', I+1 ~ print "(I5)"(1i5): {I+1}
      print*,'a'//b ~ print *: {"a"//B}
      PRINT A ~ 8 FORMAT
      PRINT FMT, A ~ 8 FORMAT
      PRINT (10), A ~ 8 FORMAT
      PRINT 0, I ~ 8 FORMAT
      PRINT 123456, I ~ 8 FORMAT
      PRINT 1.5, I ~ 8 FORMAT
      PRINT 'A'//B, C ~ 8 FORMAT
      PRINT '(F5.2)', X ~ 8 EDIT
      PRINT ~ 7 PRINT
      PRINT 10 A ~ 7 PRINT10A
      PRINT *, ~ 7 PRINT*,
      PRINT 'X', I ~ 7 PRINT'X',I
      PRINT '(Z5)', I ~ 7 PRINT'(Z5)',
      PRINT '(I5)' I ~ 7 PRINT'(I5)'I

# OPEN, CLOSE and REWIND
      OPEN (7) ~ open(unit 7)

      OPEN (UNIT=7, FILE='A.DAT', STATUS='OLD', IOSTAT=K, ERR=10) ~ \
open(unit 7,file "A.DAT",status "OLD",iostat K,err 10)
      OPEN (FILE=F//'.X', UNIT=N) ~ open(unit N,file {F//".X"})
      OPEN (7, FORM='FORMATTED') ~ 8 CONTROL
      OPEN (7, ACCESS='DIRECT', RECL=80) ~ 8 CONTROL
      OPEN (7, END=10) ~ 8 CONTROL
      OPEN (7, IOSTAT=K(1)) ~ 8 CONTROL
      OPEN 7 ~ 7 OPEN7
      OPEN () ~ 7 OPEN()
      OPEN (*) ~ 7 OPEN(*)
      OPEN (UNIT=*) ~ 7 OPEN(UNIT=*)
      OPEN (FILE='A') ~ 7 OPEN(FILE='A
      OPEN (7, 'A') ~ 7 OPEN(7,'A')
      OPEN (7, FILE='A', FILE='B') ~ 7 OPEN(7,FILE=
      OPEN (7, FILE=) ~ 7 OPEN(7,FILE=
      OPEN (7) A ~ 7 OPEN(7)A
      CLOSE (7) ~ close(unit 7)
      CLOSE (ERR=10, IOSTAT=K, UNIT=I) ~ close(unit I,iostat K,err 10)
      CLOSE (7, STATUS='KEEP') ~ 8 CONTROL
      CLOSE 7 ~ 7 CLOSE7
      CLOSE ~ 7 CLOSE
      CLOSE (7), 8 ~ 7 CLOSE(7),8
      REWIND 5 ~ rewind(unit 5)
      REWIND (5) ~ rewind(unit 5)
      REWIND (5)+1 ~ rewind(unit {(5)+1})
      REWIND (5)*(6) ~ rewind(unit {(5)*(6)})
      REWIND ((5)) ~ rewind(unit (5))
      REWIND I(3) ~ rewind(unit I[3])
      REWIND (UNIT=5, IOSTAT=K, ERR=10) ~ rewind(unit 5,iostat K,err 10)
      REWIND 1.5 ~ 8 CONSTANT
      REWIND (5, REC=1) ~ 8 CONTROL
      REWIND ~ 7 REWIND
      REWIND * ~ 7 REWIND*
      REWIND 5, 6 ~ 7 REWIND5,6
      REWIND (5, 6) ~ 7 REWIND(5,6)
      REWIND (IOSTAT=K) ~ 7 REWIND(IOSTA

# statements that are refused whatever stands behind their keyword
      ENTRY E(A) ~ 8 ENTRY
      entry $ ~ 8 ENTRY
      PAUSE ~ 8 PAUSE
   10 PAUSE 'X' ? ~ 8 PAUSE
      INQUIRE (5, EXIST=L) ~ 8 INQUIRE
      BACKSPACE 5 ~ 8 BACKSPACE
      END FILE (UNIT=5) ~ 8 ENDFILE
      INCLUDE 'X.INC' ~ 8 INCLUDE
      NAMELIST /A/ B ~ 8 NAMELIST
      ASSIGN 10 TO I ~ 8 ASSIGN
      ASSIGN 1.5 ~ 8 ASSIGN

# keywords and names that stand together, and assignments that begin as another statement
      READY ~ 8 FORMAT
      PRINTER ~ 8 FORMAT
      RETURNX ~ 8 RETURN
      REWINDS ~ rewind(unit S)
      SAVER ~ save: R
      CALLS ~ call S[]
      INTEGERS ~ integer: S
      ENDDOG ~ 8 ENDDO
      REALITY ~ 8 REAL
      CONTINUED ~ 7 CONTINUED
      REWIND UNIT = 5 ~ REWINDUNIT = 5
      ASSIGN 10 TO I = 3 ~ ASSIGN10TOI = 3
      ENTRY = 5 ~ ENTRY = 5
      INQUIRE (5) = 3 ~ INQUIRE[5] = 3
      CHARACTER*(*) FUNCTION F(*) ~ character**: FUNCTIONF[*]

# parts that stand close to others
      IF (L) THEN (I) = 3 ~ if(L) THEN[I] = 3
      ELSE IF (L) THEN = 3 ~ 7 ELSEIF(L)THE
      READ (5, ERR=20, FMT=10) I ~ read(unit 5,format 10,err 20) I
      READ (5, 10) (A(I), B, I=1,3) ~ read(unit 5,format 10) (A[I],B;I=1,3)
      READ (5, 10) I = 3 ~ 7 READ(5,10)I=
      READ (5)(10) ~ 7 READ(5)(10)
      READ ('(I5)') I ~ 8 UNFORMATTED
      READ ('(I5)'), I ~ 8 FORMAT
      WRITE (6,10)(A) ~ write(unit 6,format 10) (A)
      WRITE (6, 10.) I ~ 8 FORMAT
      WRITE (6, 1E3) I ~ 8 FORMAT
      WRITE (6, 10) (1, I=1,2), (1,2) ~ 8 CONSTANT
      GO TO (10 20), I ~ goto [1020] I
      GO TO (10, 20),, I ~ 7 GOTO(10,20),
      DATA A/1/,,B/2/ ~ 7 DATAA/1/,,B/
      CHARACTER*8,,A ~ 7 CHARACTER*8,
      IMPLICIT INTEGER (A), (B) ~ 7 IMPLICITINTE
      INTEGER FUNCTION F*4 (A) ~ 7 INTEGERFUNCT
      A_1 = B_2C ~ A_1 = B_2C
      _A = 1 ~ 7 _A=1
      I = "A" ~ 7 I="A"
      I = A ! B ~ 7 I=A!B

# a label behind a star: among subscripts, and deeper, in a reference
      A(1, *10) = 1 ~ 7 A(1,*10)=1
      A(F(*10)) = 1 ~ 8 RETURN
      C(I, F(J, *10))(1:2) = 'X' ~ 8 RETURN
      C(F(*10):2) = 'X' ~ 8 RETURN
      READ (5, 10) A(*10) ~ 7 READ(5,10)A(
      READ (5, 10) A(F(*10)) ~ 8 RETURN
      READ (5, 10, IOSTAT=A(F(*10))) I ~ 8 CONTROL
      EQUIVALENCE (A(F(*10)), B) ~ 8 RETURN
      DATA A(F(*10))/1/ ~ 8 RETURN
      DATA (A(F(*10), I), I=1,2)/2*0/ ~ 8 RETURN
      DATA (A(*10), I=1,2)/2*0/ ~ 7 DATA(A(*10),
      F(*) = 1 ~ 7 F(*)=1

# letters in order and out of order, a repeat of 0, a star in a dimension that isn't the last
      IMPLICIT INTEGER (A-A, C - D) ~ implicit: integer[A,C-D]
      IMPLICIT INTEGER (Z-A) ~ 7 IMPLICITINTE
      IMPLICIT REAL (B-A) ~ 7 IMPLICITREAL
      DATA I/0*1, 2/ ~ data: I/0*1,2/
      INTEGER A(*, 5) ~ integer: A[*,5]

# refused constants behind a star and behind STOP, and refused statements under a logical IF
      CHARACTER*1.5E3 A ~ 8 CONSTANT
      CHARACTER*1.5E+3 A ~ 7 CHARACTER*1.
      CHARACTER*(1, 2) A ~ 7 CHARACTER*(1
      CHARACTER A*3HBC ~ 8 CONSTANT
      STOP 1.5 ~ 7 STOP1.5
      STOP 3HABC ~ 7 STOP3HABC
      IF (L) END DO ~ 7 IF(L)ENDDO
      IF (L) DO WHILE (M) ~ 7 IF(L)DOWHILE
      IF (L) DO 10 WHILE (M) ~ 7 IF(L)DO10WHI
      IF (L) INCLUDE 'X' ~ 7 IF(L)INCLUDE
      READ (5, 10, IOSTAT=C(1:2)) I ~ 8 CONTROL
      READ (5, 10, IOSTAT=K, IOSTAT=A(1)) I ~ 8 CONTROL
      READ (5, 10, IOSTAT=J, IOSTAT=K) I ~ 7 READ(5,10,IO
      READ (A)//B, C ~ 8 FORMAT
      READ (A)//B ~ 8 FORMAT
      READ (N)+1, I ~ 8 FORMAT

# no statements
      X ~ 7 X
      X Y ~ 7 XY
      THEN ~ 7 THEN
      +1 ~ 7 +1
      'A B' ~ 7 'A B'
      $ ~ 7 $
      A NAME OF SEVERAL WORDS ~ 7 ANAMEOFSEVER
   10 ~ 7\1{ }
     0 ~ 7\1{ }

# parentheses inside one another
      I = \62{(}\n     1\66{(}\n     1\66{(}\n     1\6{(}1\59{)}\n     1\66{)}\n     1\66{)}\n     1\9{)} ~ \
I = \200{(}1\200{)}
      I = \62{(}\n     1\66{(}\n     1\66{(}\n     1\7{(}1\58{)}\n     1\66{)}\n     1\66{)}\n     1\11{)} ~ \
8 DEPTH
      IF (\62{(}\n     1\66{(}\n     1\66{(}\n     1\5{(}L\60{)}\n     1\66{)}\n     1\66{)}\n     1\8{)} STOP ~ \
if(\199{(}L\199{)}) stop
      IF (\62{(}\n     1\66{(}\n     1\66{(}\n     1\6{(}L\59{)}\n     1\66{)}\n     1\66{)}\n     1\10{)} STOP ~ \
8 DEPTH
   10 FORMAT\60{(}\n     1\66{(}\n     1\66{(}\n     1\8{(}I5\56{)}\n     1\66{)}\n     1\66{)}\n     1\12{)} ~ \
format: (\199{1(}1i5\199{)})
   10 FORMAT\60{(}\n     1\66{(}\n     1\66{(}\n     1\9{(}I5\55{)}\n     1\66{)}\n     1\66{)}\n     1\14{)} ~ \
8 DEPTH
   10 FORMAT(F5.1,\53{(}\n     1\66{(}\n     1\66{(}\n     1\15{(}I5\49{)}\n     1\66{)}\n     1\66{)}\n     1\20{)} ~ \
8 EDIT
      CALL S(\59{(}\n     1\66{(}\n     1\66{(}\n     1\8{(}A\57{)}\n     1\66{)}\n     1\66{)}\n     1\11{)} ~ \
call S[\199{(}A\199{)}]
      CALL S(\59{(}\n     1\66{(}\n     1\66{(}\n     1\9{(}A\56{)}\n     1\66{)}\n     1\66{)}\n     1\13{)} ~ \
8 DEPTH
      WRITE (\59{(}\n     1\66{(}\n     1\66{(}\n     1\8{(}6\57{)}\n     1\66{)}\n     1\66{)}\n     1\10{)}, *) ~ \
write(unit \199{(}6\199{)},format *)
      WRITE (\59{(}\n     1\66{(}\n     1\66{(}\n     1\9{(}6\56{)}\n     1\66{)}\n     1\66{)}\n     1\12{)}, *) ~ \
8 DEPTH
      PRINT '\59{(}\n     1\66{(}\n     1\66{(}\n     1\9{(}A\56{)}\n     1\66{)}\n     1\66{)}\n     1\12{)}' ~ \
print "\200{(}A\200{)}"(\199{1(}1a\199{)})
      PRINT '\59{(}\n     1\66{(}\n     1\66{(}\n     1\10{(}A\55{)}\n     1\66{)}\n     1\66{)}\n     1\14{)}' ~ \
8 DEPTH
"#;
