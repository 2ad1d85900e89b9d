//! Expressions and what they come to: a value as `ring a b c d / m` (a + bω + cω² + dω³ over √2^m), `rational`, `pi` or `ipi`
//! with p/q, a fault at a column or at the whole parameter, or a sum of the cells of `t` and `u` behind its factor of π.
//!
//! The rows were worked out by an exact computation apart from the code, some seventy of them by hand too.

pub(crate) const ROWS: &str = "
# whole numbers and decimals
0 | ring 0 0 0 0 / 0
4611686018427387904 | ring 4611686018427387904 0 0 0 / 0
4611686018427387905 | NumberTooWide at 1
0.5 | ring 1 0 0 0 / 2
0.1 | rational 1/10
1e19 | NumberTooWide at 1
1e-19 | NumberTooWide at 1
4.611686018427387904e18 | ring 4611686018427387904 0 0 0 / 0
4.611686018427387905e18 | NumberTooWide at 1
0.00000000000000000021684043449710088680149056017398834228515625 | ring 1 0 0 0 / 124
0.000000000000000000108420217248550443400745280086994171142578125 | NumberTooWide at 1
21684043449710088680149056017398834228515625e-62 | ring 1 0 0 0 / 124
0.00000000000000000000000000000000000000000000000000000000000005 | NumberTooWide at 1
10000000000000000000000000000000000000000e-40 | ring 1 0 0 0 / 0
0e999999999999 | ring 0 0 0 0 / 0
1e99999999999 | NumberTooWide at 1

# imaginary literals
2i | ring 0 0 2 0 / 0
0.5i | ring 0 0 1 0 / 2
0.1i | NotExact at 1
1e-30i | NotExact at 1
1e30i | NumberTooWide at 1
4611686018427387904i | ring 0 0 4611686018427387904 0 / 0
4611686018427387905i | NumberTooWide at 1
46116860184273879041e-1i | NotExact at 1
21684043449710088680149056017398834228515625e-62i | ring 0 0 1 0 / 124
21684043449710088680149056017398834228515625e-63i | NotExact at 1
108420217248550443400745280086994171142578125e-63i | NumberTooWide at 1
# (the next one is i/(5*2^64), which has none of the four kinds: by this repository's own rule its last digits decide)
108420217248550443400745280086994171142578125e-64i | NumberTooWide at 1
1e-99999999999i | NotExact at 1

# + on each pair of kinds
3+2 | ring 5 0 0 0 / 0
3+(1+i) | ring 4 0 1 0 / 0
3+(2/3) | rational 11/3
3+pi | NotExact at 1
3+0 | ring 3 0 0 0 / 0
sqrt(2)+2 | ring 2 1 0 -1 / 0
sqrt(2)+(1+i) | ring 1 1 1 -1 / 0
sqrt(2)+(2/3) | NotExact at 1
sqrt(2)+pi | NotExact at 1
sqrt(2)+0 | ring 0 1 0 -1 / 0
(1/3)+2 | rational 7/3
(1/3)+(1+i) | NotExact at 1
(1/3)+(2/3) | ring 1 0 0 0 / 0
(1/3)+0 | rational 1/3
(pi/3)+(2/3) | NotExact at 1
(pi/3)+pi | pi 4/3
(pi/3)+(i*pi/2) | NotExact at 1
(pi/3)+0 | pi 1/3
(i*pi)+(1+i) | NotExact at 1
(i*pi)+pi | NotExact at 1
(i*pi)+(i*pi/2) | ipi 3/2
(i*pi)+0 | ipi 1/1
0+2 | ring 2 0 0 0 / 0
0+(1+i) | ring 1 0 1 0 / 0
0+(2/3) | rational 2/3
0+pi | pi 1/1
0+(i*pi/2) | ipi 1/2
0+0 | ring 0 0 0 0 / 0

# - on each pair of kinds
3 - 2 | ring 1 0 0 0 / 0
3 - (1+i) | ring 2 0 -1 0 / 0
3 - (2/3) | rational 7/3
3 - 0 | ring 3 0 0 0 / 0
sqrt(2) - 2 | ring -2 1 0 -1 / 0
sqrt(2) - (1+i) | ring -1 1 -1 -1 / 0
sqrt(2) - (2/3) | NotExact at 1
sqrt(2) - 0 | ring 0 1 0 -1 / 0
(1/3) - 2 | rational -5/3
(1/3) - (1+i) | NotExact at 1
(1/3) - (2/3) | rational -1/3
(1/3) - 0 | rational 1/3
(pi/3) - pi | pi -2/3
(pi/3) - (i*pi/2) | NotExact at 1
(pi/3) - 0 | pi 1/3
(i*pi) - pi | NotExact at 1
(i*pi) - (i*pi/2) | ipi 1/2
(i*pi) - 0 | ipi 1/1
0 - 2 | ring -2 0 0 0 / 0
0 - (1+i) | ring -1 0 -1 0 / 0
0 - (2/3) | rational -2/3
0 - pi | pi -1/1
0 - (i*pi/2) | ipi -1/2
0 - 0 | ring 0 0 0 0 / 0

# * on each pair of kinds
3*2 | ring 6 0 0 0 / 0
3*(1+i) | ring 3 0 3 0 / 0
3*(2/3) | ring 2 0 0 0 / 0
3*pi | pi 3/1
3*(i*pi/2) | ipi 3/2
3*0 | ring 0 0 0 0 / 0
sqrt(2)*2 | ring 0 2 0 -2 / 0
sqrt(2)*(1+i) | ring 0 2 0 0 / 0
sqrt(2)*(2/3) | NotExact at 1
sqrt(2)*pi | NotExact at 1
sqrt(2)*(i*pi/2) | NotExact at 1
sqrt(2)*0 | ring 0 0 0 0 / 0
(1/3)*2 | rational 2/3
(1/3)*(1+i) | NotExact at 1
(1/3)*(2/3) | rational 2/9
(1/3)*pi | pi 1/3
(1/3)*(i*pi/2) | ipi 1/6
(1/3)*0 | ring 0 0 0 0 / 0
(pi/3)*2 | pi 2/3
(pi/3)*(1+i) | NotExact at 1
(pi/3)*(2/3) | pi 2/9
(pi/3)*pi | NotExact at 1
(pi/3)*(i*pi/2) | NotExact at 1
(pi/3)*0 | ring 0 0 0 0 / 0
(i*pi)*2 | ipi 2/1
(i*pi)*(1+i) | NotExact at 1
(i*pi)*(2/3) | ipi 2/3
(i*pi)*pi | NotExact at 1
(i*pi)*(i*pi/2) | NotExact at 1
(i*pi)*0 | ring 0 0 0 0 / 0
0*2 | ring 0 0 0 0 / 0
0*(1+i) | ring 0 0 0 0 / 0
0*(2/3) | ring 0 0 0 0 / 0
0*pi | ring 0 0 0 0 / 0
0*(i*pi/2) | ring 0 0 0 0 / 0
0*0 | ring 0 0 0 0 / 0

# / on each pair of kinds
3/2 | ring 3 0 0 0 / 2
3/(1+i) | ring 0 0 0 -3 / 1
3/(2/3) | ring 9 0 0 0 / 2
3/pi | NotExact at 1
3/(i*pi/2) | NotExact at 1
3/0 | ZeroDivisor at 1
sqrt(2)/2 | ring 1 0 0 0 / 1
sqrt(2)/(1+i) | ring 0 0 0 -1 / 0
sqrt(2)/(2/3) | ring 3 0 0 0 / 1
sqrt(2)/pi | NotExact at 1
sqrt(2)/(i*pi/2) | NotExact at 1
sqrt(2)/0 | ZeroDivisor at 1
(1/3)/2 | rational 1/6
(1/3)/(1+i) | NotExact at 1
(1/3)/(2/3) | ring 1 0 0 0 / 2
(1/3)/pi | NotExact at 1
(1/3)/(i*pi/2) | NotExact at 1
(1/3)/0 | ZeroDivisor at 1
(pi/3)/2 | pi 1/6
(pi/3)/(1+i) | NotExact at 1
(pi/3)/(2/3) | pi 1/2
(pi/3)/pi | rational 1/3
(pi/3)/(i*pi/2) | NotExact at 1
(pi/3)/0 | ZeroDivisor at 1
(i*pi)/2 | ipi 1/2
(i*pi)/(1+i) | NotExact at 1
(i*pi)/(2/3) | ipi 3/2
(i*pi)/pi | ring 0 0 1 0 / 0
(i*pi)/(i*pi/2) | ring 2 0 0 0 / 0
(i*pi)/0 | ZeroDivisor at 1
0/2 | ring 0 0 0 0 / 0
0/(1+i) | ring 0 0 0 0 / 0
0/(2/3) | ring 0 0 0 0 / 0
0/pi | ring 0 0 0 0 / 0
0/(i*pi/2) | ring 0 0 0 0 / 0
0/0 | ZeroDivisor at 1

# ^ on each pair of kinds
3^2 | ring 9 0 0 0 / 0
3^(1+i) | NotExact at 1
3^(2/3) | NotExact at 1
3^pi | NotExact at 1
3^(i*pi/2) | NotExact at 1
3^0 | ring 1 0 0 0 / 0
sqrt(2)^2 | ring 2 0 0 0 / 0
sqrt(2)^0 | ring 1 0 0 0 / 0
(1/3)^2 | rational 1/9
(1/3)^0 | ring 1 0 0 0 / 0
(pi/3)^2 | NotExact at 1
(pi/3)^pi | NotExact at 1
(pi/3)^0 | NotExact at 1
(i*pi)^2 | NotExact at 1
(i*pi)^(i*pi/2) | NotExact at 1
(i*pi)^0 | NotExact at 1
0^2 | ring 0 0 0 0 / 0
0^(2/3) | NotExact at 1
0^pi | NotExact at 1
0^0 | ring 1 0 0 0 / 0

# signs, and how operations group
-(1/3) | rational -1/3
-pi | pi -1/1
-(i*pi) | ipi -1/1
-0 | ring 0 0 0 0 / 0
--pi | pi 1/1
-2^2 | ring -4 0 0 0 / 0
(-2)^2 | ring 4 0 0 0 / 0
2^-1 | ring 1 0 0 0 / 2
2^-3*4 | ring 1 0 0 0 / 2
2^3^2 | ring 512 0 0 0 / 0
1/3*3 | ring 1 0 0 0 / 0
-4611686018427387904 | ring -4611686018427387904 0 0 0 / 0

# further sums, products and quotients
sqrt(2)-sqrt(2) | ring 0 0 0 0 / 0
sqrt(2)*sqrt(2) | ring 2 0 0 0 / 0
(1/3)*(3+3*sqrt(2)) | ring 1 1 0 -1 / 0
i*pi*i | pi -1/1
3*i/(1+i) | ring 0 3 0 0 / 1
1/(1-cis(pi/4)) | ring 0 1 1 0 / 1
1/(1+sqrt(2)) | ring -1 1 0 -1 / 0
1/(2+i) | NotExact at 1
(2+i)/(6+3*i) | rational 1/3
(i*pi/3)/pi | NotExact at 1

# quotients by ring numbers of 62 bits
(-99999999999999998+4309123596684353084i)/(2104561798342176543+2204561798342176541i) | ring 1 0 1 0 / 0
(-99999999999999998+4309123596684353085i)/(2104561798342176543+2204561798342176541i) | NotExact at 1
(701520599447392181+734853932780725513i)/(2104561798342176543+2204561798342176539i) | rational 1/3
(2713685395026529625+1909123596684353084*sqrt(2))/(1104561798342176543+804561798342176541*sqrt(2)) | ring 1 1 0 -1 / 0
(2713685395026529625+1909123596684353083*sqrt(2))/(1104561798342176543+804561798342176541*sqrt(2)) | NotExact at 1
(50456179834217654i+3404561798342176541*cis(pi/4))/(50456179834217654*cis(pi/4)+3404561798342176541) | ring 0 1 0 0 / 0
(1+sqrt(2))^49/(2850877693509864481+2015874949414289041*sqrt(2)) | ring 1 0 0 0 / 0
1/(2850877693509864480+2015874949414289041*sqrt(2)) | NotExact at 1
1/(2^62*sqrt(2)) | NumberTooWide at 1
1/((1+sqrt(2))^40/2^62) | NumberTooWide at 1
2^62*i/(-1+2^62*i) | NotExact at 1

# bounds: ring numbers and rationals
2^62 | ring 4611686018427387904 0 0 0 / 0
2^63 | NumberTooWide at 1
2^62+1 | NumberTooWide at 1
-2^62 | ring -4611686018427387904 0 0 0 / 0
-2^62-1 | NumberTooWide at 1
2^62*i+i | NumberTooWide at 1
2^62*sqrt(2) | ring 0 4611686018427387904 0 -4611686018427387904 / 0
2^62*sqrt(2)+sqrt(2) | NumberTooWide at 1
1/2^62 | ring 1 0 0 0 / 124
1/2^61/sqrt(2) | ring 1 0 0 0 / 123
1/2^62/sqrt(2) | NumberTooWide at 1
1/4611686018427387903 | rational 1/4611686018427387903
1/4611686018427387905 | NumberTooWide at 3
1/5/922337203685477581 | NumberTooWide at 1
4611686018427387904/3 | rational 4611686018427387904/3
1/3-1/4611686018427387904 | NumberTooWide at 1
2^62*sqrt(2)*(1/3) | NotExact at 1

# bounds: multiples of pi and of i*pi
pi*2^62 | pi 4611686018427387904/1
pi*2^62+pi | NumberTooWide at 1
pi/2^62 | pi 1/4611686018427387904
pi/2^62/2 | NumberTooWide at 1
i*pi*2^62 | ipi 4611686018427387904/1
i*pi*2^62*2 | NumberTooWide at 1
i*pi/2^62 | ipi 1/4611686018427387904
i*pi/2^62/2 | NumberTooWide at 1
sin(pi*2^62) | ring 0 0 0 0 / 0
cis(pi*2^62-pi/4) | NumberTooWide at 5

# powers
(1+sqrt(2))^25 | ring 1855077841 1311738121 0 -1311738121 / 0
(1+sqrt(2))^49 | ring 2850877693509864481 2015874949414289041 0 -2015874949414289041 / 0
(1+sqrt(2))^50 | NumberTooWide at 1
1/(1+sqrt(2))^40 | ring 1023286908188737 -723573111879672 0 723573111879672 / 0
(1+sqrt(2))^-49 | ring -2850877693509864481 2015874949414289041 0 -2015874949414289041 / 0
(3*i)^-2 | rational -1/9
(3*i)^-39 | NotExact at 1
(3*i)^-40 | NumberTooWide at 1
(3*i)^-41 | NotExact at 1
(3*sqrt(2))^-39 | NotExact at 1
(3*sqrt(2))^-40 | NumberTooWide at 1
(3*i*2^40)^-2 | NumberTooWide at 1
(2+i)^-64 | NotExact at 1
(3*cis(pi/4))^-4 | rational -1/81
(3*cis(pi/4))^-42 | NotExact at 1
(3+3*i)^-32 | NumberTooWide at 1
(1/sqrt(2)^5)^25 | NumberTooWide at 1
(1/sqrt(2)^5)^-25 | ring 0 4611686018427387904 0 -4611686018427387904 / 0
(4+4*sqrt(2))^-31 | ring -367296043199 259717522849 0 -259717522849 / 124
(4+4*sqrt(2))^-32 | NumberTooWide at 1
(1+i)^64 | ring 4294967296 0 0 0 / 0
(2+2*i)^41 | ring 2305843009213693952 0 2305843009213693952 0 / 0
cis(pi/4)^-3 | ring 0 -1 0 0 / 0
sqrt(2)^65 | NotExact at 1
0.5^62 | ring 1 0 0 0 / 124
0.5^63 | NumberTooWide at 1
(1/3)^-2 | ring 9 0 0 0 / 0
(2/3)^-2 | ring 9 0 0 0 / 4
1^65 | NotExact at 1
0^-1 | ZeroDivisor at 1
0^-65 | NotExact at 1
pi^0 | NotExact at 1
4^0.5 | NotExact at 1
2^(i*i) | ring 1 0 0 0 / 2
(2^62*sqrt(2))^-1 | NumberTooWide at 1

# sqrt
sqrt(0) | ring 0 0 0 0 / 0
sqrt(1/2) | ring 1 0 0 0 / 1
sqrt(2) | ring 0 1 0 -1 / 0
sqrt(8) | ring 0 2 0 -2 / 0
sqrt(9/2) | ring 3 0 0 0 / 1
sqrt(3) | NotExact at 1
sqrt(4/9) | rational 2/3
sqrt(2/9) | NotExact at 1
sqrt(-1) | NotExact at 1
sqrt(i) | NotExact at 1
sqrt(2^61) | ring 0 1073741824 0 -1073741824 / 0
sqrt(4611686014132420609) | ring 2147483647 0 0 0 / 0
sqrt(pi) | NotExact at 1
sqrt(i*pi) | NotExact at 1

# sin at each eighth
sin(0*pi/4) | ring 0 0 0 0 / 0
sin(1*pi/4) | ring 1 0 0 0 / 1
sin(2*pi/4) | ring 1 0 0 0 / 0
sin(3*pi/4) | ring 1 0 0 0 / 1
sin(4*pi/4) | ring 0 0 0 0 / 0
sin(5*pi/4) | ring -1 0 0 0 / 1
sin(6*pi/4) | ring -1 0 0 0 / 0
sin(7*pi/4) | ring -1 0 0 0 / 1

# cos at each eighth
cos(0*pi/4) | ring 1 0 0 0 / 0
cos(1*pi/4) | ring 1 0 0 0 / 1
cos(2*pi/4) | ring 0 0 0 0 / 0
cos(3*pi/4) | ring -1 0 0 0 / 1
cos(4*pi/4) | ring -1 0 0 0 / 0
cos(5*pi/4) | ring -1 0 0 0 / 1
cos(6*pi/4) | ring 0 0 0 0 / 0
cos(7*pi/4) | ring 1 0 0 0 / 1

# cis at each eighth
cis(0*pi/4) | ring 1 0 0 0 / 0
cis(1*pi/4) | ring 0 1 0 0 / 0
cis(2*pi/4) | ring 0 0 1 0 / 0
cis(3*pi/4) | ring 0 0 0 1 / 0
cis(4*pi/4) | ring -1 0 0 0 / 0
cis(5*pi/4) | ring 0 -1 0 0 / 0
cis(6*pi/4) | ring 0 0 -1 0 / 0
cis(7*pi/4) | ring 0 0 0 -1 / 0

# exp at each eighth
exp(0*i*pi/4) | ring 1 0 0 0 / 0
exp(1*i*pi/4) | ring 0 1 0 0 / 0
exp(2*i*pi/4) | ring 0 0 1 0 / 0
exp(3*i*pi/4) | ring 0 0 0 1 / 0
exp(4*i*pi/4) | ring -1 0 0 0 / 0
exp(5*i*pi/4) | ring 0 -1 0 0 / 0
exp(6*i*pi/4) | ring 0 0 -1 0 / 0
exp(7*i*pi/4) | ring 0 0 0 -1 / 0

# functions elsewhere
sin(0) | ring 0 0 0 0 / 0
sin(1) | NotExact at 1
sin(i*pi) | NotExact at 1
cos(0) | ring 1 0 0 0 / 0
cos(1/3) | NotExact at 1
cis(0) | ring 1 0 0 0 / 0
cis(sqrt(2)) | NotExact at 1
cis(i*pi) | NotExact at 1
exp(0) | ring 1 0 0 0 / 0
exp(1) | NotExact at 1
exp(sqrt(2)) | NotExact at 1
exp(pi) | NotExact at 1
exp(-i*pi/4) | ring 0 0 0 -1 / 0
exp(i*pi/4) | ring 0 1 0 0 / 0
sin(pi/6) | NotExact at 1
cos(pi/3) | NotExact at 1
cis(pi/8) | NotExact at 1

# places
((1/0)) | ZeroDivisor at 3
(1+1)/0 | ZeroDivisor at 1
pi*((1/0)+1) | ZeroDivisor at 6
-(1/0) | ZeroDivisor at 3
1/-0 | ZeroDivisor at 1
-pi^2 | NotExact at 2
(-pi)^2 | NotExact at 1
sqrt(1+(-2)) | NotExact at 1
(4611686018427387905) | NumberTooWide at 2
2^(1/0) | ZeroDivisor at 4
2 * ( 1 / 0 ) | ZeroDivisor at 7

# which fault comes first
(1/0)+(2^63) | ZeroDivisor at 2
2^63+1/0 | NumberTooWide at 1
pi*pi+1/0 | NotExact at 1
2^63/0 | NumberTooWide at 1
2^63^(1/0) | ZeroDivisor at 7
0^(1/0) | ZeroDivisor at 4

# sums with cells: signs, sums and multiples of pi
t | sum 0/1; t[0] 1/1
t[3] | sum 0/1; t[3] 1/1
-t | sum 0/1; t[0] -1/1
t+u | sum 0/1; t[0] 1/1; u[0] 1/1
t - u | sum 0/1; t[0] 1/1; u[0] -1/1
t+0 | sum 0/1; t[0] 1/1
t+1 | NotExact whole
pi - t | sum 1/1; t[0] -1/1
t+pi/3 | sum 1/3; t[0] 1/1
t+i*pi | NotExact whole
t+sqrt(2)-sqrt(2) | NotExact whole
t+(sqrt(2)-sqrt(2)) | sum 0/1; t[0] 1/1
t+pi - pi | sum 0/1; t[0] 1/1
t - t | sum 0/1; t[0] 0/1
u[1]+t - t+u[1] | sum 0/1; u[1] 2/1; t[0] 0/1
2*t/3+pi/4 | sum 1/4; t[0] 2/3
(t+pi)*2/3 | sum 2/3; t[0] 2/3
(t[1]+t[2])-(t[2]+t[3]) | sum 0/1; t[1] 1/1; t[2] 0/1; t[3] -1/1

# sums with cells: products and quotients
t*2 | sum 0/1; t[0] 2/1
0*t | sum 0/1; t[0] 0/1
t*0.1 | sum 0/1; t[0] 1/10
t/3 | sum 0/1; t[0] 1/3
t/(2/3) | sum 0/1; t[0] 3/2
t*i*i | NotExact whole
t*(i*i) | sum 0/1; t[0] -1/1
t*sqrt(2) | NotExact whole
t*pi | NotExact whole
t/pi | NotExact whole
t*u | NotExact whole
(t - t)*u | NotExact whole
t/u | NotExact whole
t/(u - u) | NotExact whole
2/t | NotExact whole
t/0 | ZeroDivisor whole
(t+pi)/-2 | sum -1/2; t[0] -1/2

# cells in powers and functions
t^2 | NotExact whole
t^0 | NotExact whole
sin(t) | NotExact whole
sin(pi/4)*t | NotExact whole
sin(pi/2)*t | sum 0/1; t[0] 1/1

# sums with cells: places and which fault comes first
t*(1/0) | ZeroDivisor at 4
t+1/0 | ZeroDivisor at 3
1/0+t | ZeroDivisor at 1
t*u+1/0 | NotExact whole
t+(1+1/0) | ZeroDivisor at 6
sin(t+1/0) | ZeroDivisor at 7
sin(t)+1/0 | NotExact whole
t+(pi*pi) | NotExact at 4
(t*u)/0 | NotExact whole
t*2^63 | NumberTooWide at 3

# sums with cells: sixteen cells
t+t[1]+t[2]+t[3]+t[4]+t[5]+t[6]+t[7]+t[8]+t[9]+t[10]+t[11]+t[12]+t[13]+t[14]+t[15] | sum 0/1; t[0] 1/1; t[1] 1/1; t[2] 1/1; t[3] 1/1; t[4] 1/1; t[5] 1/1; t[6] 1/1; t[7] 1/1; t[8] 1/1; t[9] 1/1; t[10] 1/1; t[11] 1/1; t[12] 1/1; t[13] 1/1; t[14] 1/1; t[15] 1/1
t+t[1]+t[2]+t[3]+t[4]+t[5]+t[6]+t[7]+t[8]+t[9]+t[10]+t[11]+t[12]+t[13]+t[14]+t[15]+1 | NotExact whole
t+t[1]+t[2]+t[3]+t[4]+t[5]+t[6]+t[7]+t[8]+t[9]+t[10]+t[11]+t[12]+t[13]+t[14]+t[15]+u | NumberTooWide whole
t+t[1]+t[2]+t[3]+t[4]+t[5]+t[6]+t[7]+t[8]+t[9]+t[10]+t[11]+t[12]+t[13]+t[14]+t[15]+u+1/0 | NumberTooWide whole
t+t[1]+t[2]+t[3]+t[4]+t[5]+t[6]+t[7]+t[8]+t[9]+t[10]+t[11]+t[12]+t[13]+t[14]+t[15]+u*(1/0) | ZeroDivisor at 87
u - u+t+t[1]+t[2]+t[3]+t[4]+t[5]+t[6]+t[7]+t[8]+t[9]+t[10]+t[11]+t[12]+t[13]+t[14]+t[15] | NumberTooWide whole

# sums with cells: bounds on the way
t*2^62/2^62 | sum 0/1; t[0] 1/1
t*2^62*2/2^63 | NumberTooWide whole
t/2^62*2^62 | sum 0/1; t[0] 1/1
t/2^62/2*2 | NumberTooWide whole
t+pi*2^62-2^62*pi | sum 0/1; t[0] 1/1
t+pi*2^62+pi - pi*2^62 | NumberTooWide whole
t+(pi*2^62+pi) | NumberTooWide at 4
pi*2^62+t+pi | NumberTooWide whole

# sums with cells: bounds of the whole
t*2^62 | NumberTooWide whole
t*2147483648 | sum 0/1; t[0] 2147483648/1
t*2147483649 | NumberTooWide whole
t*2147483648/3 | sum 0/1; t[0] 2147483648/3
t/1048576 | sum 0/1; t[0] 1/1048576
t/1048577 | NumberTooWide whole
t/1048577-t/1048577 | sum 0/1; t[0] 0/1
t/1024+u/1023 | sum 0/1; t[0] 1/1024; u[0] 1/1023
t/1024+u/1025 | NumberTooWide whole
t+pi/4194304 | sum 1/4194304; t[0] 1/1
t+pi/8388608 | NumberTooWide whole
t+pi*536870912 | sum 536870912/1; t[0] 1/1
t+pi*536870913 | NumberTooWide whole
t/3+pi*536870912 | NumberTooWide whole

# bounds: further ends
-2^62*i | ring 0 0 -4611686018427387904 0 / 0
-2^62*i - i | NumberTooWide at 1
2^62*cis(pi/4) | ring 0 4611686018427387904 0 0 / 0
-(2^62)/3 | rational -4611686018427387904/3
-pi*2^62 | pi -4611686018427387904/1
-pi*2^62 - pi | NumberTooWide at 1
-i*pi*2^62 | ipi -4611686018427387904/1
-i*pi*2^62 - i*pi | NumberTooWide at 1

# no sum of two kinds, unless one of them is 0
3+(i*pi/2) | NotExact at 1
sqrt(2)+(i*pi/2) | NotExact at 1
(1/3)+pi | NotExact at 1
(1/3)+(i*pi/2) | NotExact at 1
(pi/3)+2 | NotExact at 1
(pi/3)+(1+i) | NotExact at 1
(i*pi)+2 | NotExact at 1
(i*pi)+(2/3) | NotExact at 1
3 - pi | NotExact at 1
3 - (i*pi/2) | NotExact at 1
sqrt(2) - pi | NotExact at 1
sqrt(2) - (i*pi/2) | NotExact at 1
(1/3) - pi | NotExact at 1
(1/3) - (i*pi/2) | NotExact at 1
(pi/3) - 2 | NotExact at 1
(pi/3) - (1+i) | NotExact at 1
(pi/3) - (2/3) | NotExact at 1
(i*pi) - 2 | NotExact at 1
(i*pi) - (1+i) | NotExact at 1
(i*pi) - (2/3) | NotExact at 1

# no power by what is no whole number
sqrt(2)^(1+i) | NotExact at 1
sqrt(2)^(2/3) | NotExact at 1
sqrt(2)^pi | NotExact at 1
sqrt(2)^(i*pi/2) | NotExact at 1
(1/3)^(1+i) | NotExact at 1
(1/3)^(2/3) | NotExact at 1
(1/3)^pi | NotExact at 1
(1/3)^(i*pi/2) | NotExact at 1
(pi/3)^(1+i) | NotExact at 1
(pi/3)^(2/3) | NotExact at 1
(pi/3)^(i*pi/2) | NotExact at 1
(i*pi)^(1+i) | NotExact at 1
(i*pi)^(2/3) | NotExact at 1
(i*pi)^pi | NotExact at 1
0^(1+i) | NotExact at 1
0^(i*pi/2) | NotExact at 1
";
