// Operations on values.

/// The operation; its operands, each with a stroke behind it: integers, T and F, texts in apostrophes; what it
/// gives: a value in the same form, a fault, or that they don't fit it.
pub const OPERATIONS: &str = r"
# powers, at both ends of the range
Power ~ 2/10/ ~ 1024
Power ~ -3/3/ ~ -27
Power ~ 2/30/ ~ 1073741824
Power ~ 2/31/ ~ Overflow
Power ~ -2/31/ ~ -2147483648
Power ~ -2/32/ ~ Overflow
Power ~ -2/33/ ~ Overflow
Power ~ 46340/2/ ~ 2147395600
Power ~ 46341/2/ ~ Overflow
Power ~ -46341/2/ ~ Overflow
Power ~ 1290/3/ ~ 2146689000
Power ~ 1291/3/ ~ Overflow
Power ~ -1290/3/ ~ -2146689000
Power ~ -1291/3/ ~ Overflow
Power ~ 2147483647/1/ ~ 2147483647
Power ~ -2147483648/1/ ~ -2147483648
Power ~ -2147483648/2/ ~ Overflow
Power ~ 2/2147483647/ ~ Overflow

# powers of 0, 1 and -1, and powers below 0
Power ~ 0/0/ ~ 1
Power ~ 0/1/ ~ 0
Power ~ 0/2147483647/ ~ 0
Power ~ 0/-1/ ~ ZeroDivide
Power ~ 0/-2147483648/ ~ ZeroDivide
Power ~ -2147483648/0/ ~ 1
Power ~ 1/2147483647/ ~ 1
Power ~ 1/-5/ ~ 1
Power ~ -1/2147483647/ ~ -1
Power ~ -1/-3/ ~ -1
Power ~ -1/-2/ ~ 1
Power ~ -1/-2147483648/ ~ 1
Power ~ 2/-1/ ~ 0
Power ~ -2/-1/ ~ 0
Power ~ -2/-3/ ~ 0
Power ~ 2147483647/-2147483648/ ~ 0

Times ~ -7/-3/ ~ 21
Times ~ -7/3/ ~ -21
Times ~ 0/-2147483648/ ~ 0
Times ~ -2147483648/1/ ~ -2147483648
Times ~ -2147483648/-1/ ~ Overflow
Times ~ 2147483647/-1/ ~ -2147483647
Times ~ 65536/32767/ ~ 2147418112
Times ~ 65536/32768/ ~ Overflow
Times ~ -65536/32768/ ~ -2147483648
Times ~ -2147483648/-2147483648/ ~ Overflow

# toward zero
Over ~ 7/2/ ~ 3
Over ~ -7/2/ ~ -3
Over ~ 7/-2/ ~ -3
Over ~ -7/-2/ ~ 3
Over ~ 1/2/ ~ 0
Over ~ -1/2/ ~ 0
Over ~ 0/-5/ ~ 0
Over ~ -2147483648/-1/ ~ Overflow
Over ~ -2147483648/1/ ~ -2147483648
Over ~ -2147483648/2/ ~ -1073741824
Over ~ -2147483648/2147483647/ ~ -1
Over ~ -2147483648/-2147483648/ ~ 1
Over ~ 2147483647/-1/ ~ -2147483647
Over ~ 2147483647/-2147483648/ ~ 0
Over ~ 5/0/ ~ ZeroDivide
Over ~ 0/0/ ~ ZeroDivide
Over ~ -2147483648/0/ ~ ZeroDivide

Positive ~ 5/ ~ 5
Positive ~ -2147483648/ ~ -2147483648
Negative ~ 0/ ~ 0
Negative ~ 2147483647/ ~ -2147483647
Negative ~ -2147483647/ ~ 2147483647
Negative ~ -2147483648/ ~ Overflow

# sums at both ends
Plus ~ 2147483647/0/ ~ 2147483647
Plus ~ 2147483647/1/ ~ Overflow
Plus ~ 1073741824/1073741823/ ~ 2147483647
Plus ~ 1073741824/1073741824/ ~ Overflow
Plus ~ 2147483647/-2147483648/ ~ -1
Plus ~ -1073741824/-1073741824/ ~ -2147483648
Plus ~ -2147483648/-1/ ~ Overflow
Plus ~ -2147483648/-2147483648/ ~ Overflow
Minus ~ -2147483648/1/ ~ Overflow
Minus ~ -2147483648/-1/ ~ -2147483647
Minus ~ -1/2147483647/ ~ -2147483648
Minus ~ -2/2147483647/ ~ Overflow
Minus ~ 0/-2147483648/ ~ Overflow
Minus ~ -1/-2147483648/ ~ 2147483647
Minus ~ 2147483647/-1/ ~ Overflow
Minus ~ -2147483648/-2147483648/ ~ 0

Concat ~ 'AB'/'C'/ ~ 'ABC'
Concat ~ ' A'/'B '/ ~ ' AB '
Concat ~ ''/'A'/ ~ 'A'
Concat ~ ''/''/ ~ ''

# relations of integers
Lt ~ 1/2/ ~ T
Lt ~ 2/2/ ~ F
Lt ~ 3/2/ ~ F
Lt ~ -2147483648/2147483647/ ~ T
Le ~ 1/2/ ~ T
Le ~ 2/2/ ~ T
Le ~ 3/2/ ~ F
Le ~ 2147483647/-2147483648/ ~ F
Eq ~ 1/2/ ~ F
Eq ~ -2147483648/-2147483648/ ~ T
Eq ~ 3/2/ ~ F
Ne ~ 1/2/ ~ T
Ne ~ 2147483647/2147483647/ ~ F
Ne ~ 3/2/ ~ T
Gt ~ 1/2/ ~ F
Gt ~ 2/2/ ~ F
Gt ~ 3/2/ ~ T
Gt ~ -2147483648/2147483647/ ~ F
Ge ~ 1/2/ ~ F
Ge ~ 2/2/ ~ T
Ge ~ 3/2/ ~ T
Ge ~ -1/0/ ~ F

# relations of characters: the shorter is followed by blanks, and bytes count without sign
Eq ~ 'A'/'A  '/ ~ T
Ne ~ 'A'/'A  '/ ~ F
Lt ~ 'A'/'A  '/ ~ F
Le ~ 'A'/'A  '/ ~ T
Gt ~ 'A  '/'A'/ ~ F
Ge ~ 'A  '/'A'/ ~ T
Lt ~ 'AB'/'B'/ ~ T
Le ~ 'B'/'AB'/ ~ F
Eq ~ 'AB'/'B'/ ~ F
Ne ~ 'AB'/'B'/ ~ T
Gt ~ 'B'/'AB'/ ~ T
Ge ~ 'AB'/'B'/ ~ F
Lt ~ 'A'/'A\x1F'/ ~ F
Gt ~ 'A'/'A\x1F'/ ~ T
Lt ~ 'A\x1F'/'A'/ ~ T
Ge ~ 'A\x1F'/'A'/ ~ F
Lt ~ 'A'/'A!'/ ~ T
Lt ~ 'Z'/'a'/ ~ T
Lt ~ 'z'/'\xFF'/ ~ T
Eq ~ 'a'/'A'/ ~ F
Eq ~ ''/'  '/ ~ T
Gt ~ ''/'\x01'/ ~ T

Not ~ T/ ~ F
Not ~ F/ ~ T
And ~ F/F/ ~ F
And ~ F/T/ ~ F
And ~ T/F/ ~ F
And ~ T/T/ ~ T
Or ~ F/F/ ~ F
Or ~ F/T/ ~ T
Or ~ T/F/ ~ T
Or ~ T/T/ ~ T
Eqv ~ F/F/ ~ T
Eqv ~ F/T/ ~ F
Eqv ~ T/F/ ~ F
Eqv ~ T/T/ ~ T
Neqv ~ F/F/ ~ F
Neqv ~ F/T/ ~ T
Neqv ~ T/F/ ~ T
Neqv ~ T/T/ ~ F

Abs ~ 5/ ~ 5
Abs ~ -5/ ~ 5
Abs ~ 0/ ~ 0
Abs ~ -2147483648/ ~ Overflow
Iabs ~ 2147483647/ ~ 2147483647
Iabs ~ -2147483647/ ~ 2147483647
Iabs ~ -2147483648/ ~ Overflow

# with the sign of the first
Mod ~ 7/2/ ~ 1
Mod ~ -7/2/ ~ -1
Mod ~ 7/-2/ ~ 1
Mod ~ -7/-2/ ~ -1
Mod ~ -6/3/ ~ 0
Mod ~ 0/5/ ~ 0
Mod ~ -2147483648/-1/ ~ 0
Mod ~ -2147483648/10/ ~ -8
Mod ~ -2147483648/2147483647/ ~ -1
Mod ~ 2147483647/-2147483648/ ~ 2147483647
Mod ~ 5/0/ ~ ZeroDivide
Mod ~ 0/0/ ~ ZeroDivide
Mod ~ -2147483648/0/ ~ ZeroDivide

# with the sign of the second, where 0 has that of what is above 0
Sign ~ 3/0/ ~ 3
Sign ~ -3/0/ ~ 3
Sign ~ 3/-1/ ~ -3
Sign ~ -3/-1/ ~ -3
Sign ~ 0/-1/ ~ 0
Sign ~ -2147483648/1/ ~ Overflow
Sign ~ -2147483648/0/ ~ Overflow
Sign ~ -2147483648/-1/ ~ -2147483648
Sign ~ 2147483647/-2147483648/ ~ -2147483647
Isign ~ 3/-2/ ~ -3
Isign ~ -2147483647/5/ ~ 2147483647
Isign ~ -2147483648/1/ ~ Overflow
Isign ~ -2147483648/-2147483648/ ~ -2147483648

Dim ~ 5/2/ ~ 3
Dim ~ 2/5/ ~ 0
Dim ~ 2/2/ ~ 0
Dim ~ 2147483647/0/ ~ 2147483647
Dim ~ 2147483647/-1/ ~ Overflow
Dim ~ -2147483648/1/ ~ 0
Dim ~ -2147483648/2147483647/ ~ 0
Idim ~ 7/-3/ ~ 10
Idim ~ -3/7/ ~ 0
Idim ~ -1/-2147483648/ ~ 2147483647
Idim ~ 0/-2147483648/ ~ Overflow

# of two or more, the answer at each place
Max ~ 1/2/ ~ 2
Max ~ 9/1/4/1/5/ ~ 9
Max ~ 3/1/4/1/5/ ~ 5
Max ~ -4/-5/-1/-2/-3/ ~ -1
Max ~ -2147483648/2147483647/ ~ 2147483647
Max ~ -2147483648/-2147483648/ ~ -2147483648
Max0 ~ -1/0/ ~ 0
Max0 ~ -2147483648/-2147483647/ ~ -2147483647
Max0 ~ 7/7/7/ ~ 7
Min ~ 1/2/ ~ 1
Min ~ 0/1/2/3/4/ ~ 0
Min ~ 3/1/4/-1/5/ ~ -1
Min ~ 4/3/2/1/0/ ~ 0
Min ~ -2147483648/2147483647/ ~ -2147483648
Min ~ 2147483647/2147483647/ ~ 2147483647
Min0 ~ -1/0/ ~ -1
Min0 ~ 2147483647/2147483646/ ~ 2147483646
Min0 ~ 7/7/7/ ~ 7

Len ~ 'ABC'/ ~ 3
Len ~ 'A  '/ ~ 3
Len ~ ''/ ~ 0

# the least place, where blanks count
Index ~ 'ABAB'/'BA'/ ~ 2
Index ~ 'ABAB'/'AB'/ ~ 1
Index ~ 'AAB'/'AB'/ ~ 2
Index ~ 'ABC'/'C'/ ~ 3
Index ~ 'ABC'/'BC'/ ~ 2
Index ~ 'ABC'/'D'/ ~ 0
Index ~ 'ABC'/'CD'/ ~ 0
Index ~ 'AB'/'ABC'/ ~ 0
Index ~ 'A'/'A '/ ~ 0
Index ~ 'ABC'/'ABC'/ ~ 1
Index ~ 'ABC'/''/ ~ 1
Index ~ ''/''/ ~ 1
Index ~ ''/'A'/ ~ 0

# characters are bytes
Char ~ 0/ ~ '\x00'
Char ~ 65/ ~ 'A'
Char ~ 255/ ~ '\xFF'
Char ~ 256/ ~ CharRange
Char ~ -1/ ~ CharRange
Char ~ 2147483647/ ~ CharRange
Char ~ -2147483648/ ~ CharRange
Ichar ~ 'A'/ ~ 65
Ichar ~ '\x00'/ ~ 0
Ichar ~ '\xFF'/ ~ 255
Ichar ~ 'AB'/ ~ CharRange
Ichar ~ 'A '/ ~ CharRange
Ichar ~ ''/ ~ CharRange

Lge ~ 'A'/'A '/ ~ T
Lge ~ 'A'/'B'/ ~ F
Lge ~ 'A'/'A\x1F'/ ~ T
Lgt ~ 'A'/'A '/ ~ F
Lgt ~ 'B'/'AB'/ ~ T
Lgt ~ 'A'/'A\x1F'/ ~ T
Lle ~ 'A '/'A'/ ~ T
Lle ~ 'B'/'AB'/ ~ F
Lle ~ 'A'/'A\x1F'/ ~ F
Llt ~ 'A '/'A'/ ~ F
Llt ~ 'AB'/'B'/ ~ T
Llt ~ 'A\x1F'/'A'/ ~ T

# operands of another number
Power ~ 1/ ~ unfit
Power ~ 1/2/3/ ~ unfit
Minus ~ 1/ ~ unfit
Negative ~ 1/2/ ~ unfit
Positive ~ ~ unfit
Concat ~ 'A'/ ~ unfit
Lt ~ 1/2/3/ ~ unfit
Ge ~ 'A'/ ~ unfit
Not ~ T/F/ ~ unfit
And ~ T/ ~ unfit
Eqv ~ T/F/T/ ~ unfit
Abs ~ 1/2/ ~ unfit
Mod ~ 1/ ~ unfit
Mod ~ 1/2/3/ ~ unfit
Max ~ 1/ ~ unfit
Max0 ~ ~ unfit
Min ~ ~ unfit
Min0 ~ 1/ ~ unfit
Len ~ 'A'/'B'/ ~ unfit
Index ~ 'A'/ ~ unfit
Char ~ 1/2/ ~ unfit
Ichar ~ ~ unfit
Llt ~ 'A'/ ~ unfit

# operands of another type
Times ~ 1/T/ ~ unfit
Plus ~ 'A'/'B'/ ~ unfit
Over ~ F/1/ ~ unfit
Negative ~ T/ ~ unfit
Concat ~ 1/2/ ~ unfit
Eq ~ T/T/ ~ unfit
Ne ~ 1/'A'/ ~ unfit
Gt ~ 'A'/1/ ~ unfit
Not ~ 1/ ~ unfit
Or ~ 1/0/ ~ unfit
Neqv ~ T/0/ ~ unfit
Iabs ~ T/ ~ unfit
Sign ~ T/1/ ~ unfit
Dim ~ 1/'A'/ ~ unfit
Max ~ 1/2/T/ ~ unfit
Min ~ 'A'/'B'/ ~ unfit
Len ~ 1/ ~ unfit
Index ~ 'A'/1/ ~ unfit
Char ~ 'A'/ ~ unfit
Ichar ~ 65/ ~ unfit
Lge ~ 1/2/ ~ unfit
";

/// The name; the operation of the intrinsic function that has it.
pub const INTRINSICS: &str = r"
ABS ~ Abs
IABS ~ Iabs
MOD ~ Mod
SIGN ~ Sign
ISIGN ~ Isign
DIM ~ Dim
IDIM ~ Idim
MAX ~ Max
MAX0 ~ Max0
MIN ~ Min
MIN0 ~ Min0
LEN ~ Len
INDEX ~ Index
CHAR ~ Char
ICHAR ~ Ichar
LGE ~ Lge
LGT ~ Lgt
LLE ~ Lle
LLT ~ Llt
 ~ none
abs ~ none
MA ~ none
MODE ~ none
MAX1 ~ none
AMAX0 ~ none
SQRT ~ none
PLUS ~ none
";

/// The operation; of how many integers, of 0 to 4, it gives an integer.
pub const INTEGERS: &str = r"
Power ~ 2
Times ~ 2
Over ~ 2
Positive ~ 1
Negative ~ 1
Plus ~ 2
Minus ~ 2
Concat ~
Lt ~
Le ~
Eq ~
Ne ~
Gt ~
Ge ~
Not ~
And ~
Or ~
Eqv ~
Neqv ~
Abs ~ 1
Iabs ~ 1
Mod ~ 2
Sign ~ 2
Isign ~ 2
Dim ~ 2
Idim ~ 2
Max ~ 234
Max0 ~ 234
Min ~ 234
Min0 ~ 234
Len ~
Index ~
Char ~
Ichar ~
Lge ~
Lgt ~
Lle ~
Llt ~
";
