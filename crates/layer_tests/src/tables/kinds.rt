// The kinds of statements.

/// The statement, without a label; its kind.
pub const WITHOUT_LABEL: &str = r"
DO10I=15 ~ assign
DO10I=1,5 ~ do
DO 10, I = 1, 5 ~ do
DO10I=(1,5) ~ assign
DO I = 1, 5 ~ assign
DO 10 WHILE (X) ~ unsupported WHILE
DO 10, WHILE (X) ~ unsupported WHILE
DOWHILE(X) ~ unsupported WHILE
DO10WHILE=1,2 ~ do
IF(I)=5 ~ assign
IF(I)10,20,30 ~ keyword IF
A(I)(2:3)='X' ~ assign
A(I)(2:3)(4)=1 ~ no statement
F(X)=X+1 ~ assign
ABCDEFGHIJABCDEFGHIJABCDEFGHIJABCDEFGHIJ=1 ~ assign
DO10ABCDEFGHIJABCDEFGHIJABCDEFGHIJABCDEFGHIJ=1,2 ~ do
X=1 ~ assign
ASSIGN=3 ~ assign
ASSIGN 10 TO I ~ unsupported ASSIGN
FORMAT(I5) ~ keyword FORMAT
FORMAT(I)=3 ~ assign
INTEGERFUNCTIONF(A) ~ keyword FUNCTION
CHARACTER*8FUNCTIONF() ~ keyword FUNCTION
CHARACTER*(*) FUNCTION F(A, B_1) ~ keyword FUNCTION
LOGICAL*4 FUNCTION F(A) ~ keyword FUNCTION
INTEGERFUNCTIONF ~ keyword INTEGER
INTEGERFUNCTIONF(1) ~ keyword INTEGER
INTEGERFUNCTIONF(A)B ~ keyword INTEGER
CHARACTER*8HELLO ~ keyword CHARACTER
FUNCTION F(A) ~ keyword FUNCTION
REALFUNCTIONF(A) ~ function REAL
DOUBLE PRECISION FUNCTION F() ~ function DOUBLEPRECISION
COMPLEX*16 FUNCTION F(A, B) ~ function COMPLEX
PAUSE $ ~ unsupported PAUSE
GOTO10 ~ keyword GOTO
GOTO(10,20),I ~ keyword GOTO
GO TO I ~ keyword GOTO
ENDIF ~ keyword ENDIF
END IF ~ keyword ENDIF
END ~ keyword END
ELSEIF(X)THEN ~ keyword ELSEIF
ELSE ~ keyword ELSE
PRINT*,I ~ keyword PRINT
READ(5,100)A ~ keyword READ
WRITE(6,100) ~ keyword WRITE
STOP ~ keyword STOP
RETURN ~ keyword RETURN
BLOCKDATA ~ keyword BLOCKDATA
BLOCK DATA X ~ keyword BLOCKDATA
ENDFILE 5 ~ unsupported ENDFILE
ENDDO ~ unsupported ENDDO
PAUSE ~ unsupported PAUSE
REALX ~ unsupported REAL
DOUBLE PRECISION X ~ unsupported DOUBLEPRECISION
COMPLEX Z ~ unsupported COMPLEX
IMPLICIT NONE ~ unsupported NONE
IMPLICIT INTEGER (A) ~ keyword IMPLICIT
+1 ~ no statement
 ~ no statement
'X=1' ~ no statement
X'='=1 ~ no statement
A('=')=1 ~ assign
DO10I='1,5' ~ assign
CALL S ~ keyword CALL
CONTINUE ~ keyword CONTINUE
DATA I/1/ ~ keyword DATA
";

/// The statement, with a label; its kind.
pub const WITH_LABEL: &str = r"
FORMAT(I5) ~ format
FORMAT(I)=3 ~ format
FORMAT (3HX=1) ~ format
X=1 ~ assign
FORMAT=1 ~ assign
CONTINUE ~ keyword CONTINUE
";
