// Recorded cases and answers of the Rust crate, written by `tools/recorded.py`.
pub const CASES: &str = "\
case small-5-1-8-0
table
error 0 0 none
error 0 0 none
error 0 0 none
error 0 0 none
error 0 0 none
basket 0
basket 1
new 0 3 1
collect 1 0
raise_all 0 1 2 3241245522
raise 0 1 2
collect 0 0
new 0 4 3
collect 0 0
new 0 0 4
chain_all 0 0
of 0
explicit 0 0 4 none
explicit 1 1 2 0
explicit 2 4 3 0
explicit 3 2 3241245522 1
explicit 4 3 1 3
shown 0 0
shown 1 1
shown 2 4
shown 3 2
shown 4 3
frame 0 0 4 none
frame 1 1 2 0
frame 2 4 3 0
frame 3 2 3241245522 1
frame 4 3 1 3
case small-2-10-0-3
table
error 0 0 none
error 2 0 0
error 0 0 none
new 0 2 1
raise 0 1 2
of 0
explicit 0 1 2 none
native 1 0 2 0
explicit 2 2 1 0
shown 0 0
shown 1 2
frame 0 1 2 none
frame 1 2 1 0
case small-2-10-0-21
table
error 0 0 none
error 0 0 0
error 2 9 none
new 0 2 1
raise 0 1 209665769
of 0
explicit 0 1 209665769 none
native 1 0 209665769 0
explicit 2 2 1 0
shown 0 1
shown 1 0
frame 0 1 209665769 none
frame 1 2 1 0
case small-2-10-0-40
table
error 0 0 none
error 1 9 none
new 0 1 1
raise 0 0 2
of 0
explicit 0 0 2 none
explicit 1 1 1 0
shown 0 0
shown 1 1
frame 0 0 2 none
frame 1 1 1 0
case small-2-10-0-59
table
error 2 0 none
error 0 0 0
error 2 10 1
error 4 3 none
new 0 3 2053640025
raise 0 2 1
of 0
explicit 0 2 1 none
native 1 1 1 0
explicit 2 3 2053640025 0
native 3 0 1 1
shown 0 1
shown 1 3
frame 0 2 1 none
frame 1 3 2053640025 0
case small-2-10-0-77
table
error 3 0 none
error 3 0 none
new 0 1 0
raise 0 0 1
of 0
explicit 0 0 1 none
explicit 1 1 0 0
shown 0 0
shown 1 1
frame 0 0 1 none
frame 1 1 0 0
case small-2-10-0-96
table
error 1 6 none
error 4 2 0
error 2 1 none
error 0 0 2
error 2 10 3
new 0 4 1708237058
raise 0 1 1
of 0
explicit 0 1 1 none
native 1 0 1 0
explicit 2 4 1708237058 0
native 3 3 1708237058 2
native 4 2 1708237058 3
shown 0 1
shown 1 0
shown 2 3
frame 0 1 1 none
frame 1 4 1708237058 0
case small-3-4-0-15
table
error 0 0 none
error 2 0 0
error 0 0 none
error 2 1 2
error 0 0 none
basket 0
new 0 3 1
collect 0 0
new 0 4 2
collect 0 0
raise_all 0 0 1 3
of 0
explicit 0 1 3 none
native 1 0 3 0
explicit 2 3 1 0
explicit 3 4 2 0
native 4 2 1 2
shown 0 0
shown 1 4
shown 2 2
frame 0 1 3 none
frame 1 3 1 0
frame 2 4 2 0
case small-3-4-0-33
table
error 0 0 none
error 0 0 0
error 0 0 none
error 2 8 none
new 0 1 1
new 1 2 2
chain 0 1
new 1 3 3
chain 0 1
of 0
explicit 0 1 1 none
native 1 0 1 0
explicit 2 2 2 0
explicit 3 3 3 0
shown 0 1
shown 1 0
shown 2 2
frame 0 1 1 none
frame 1 2 2 0
frame 2 3 3 0
case small-3-4-0-52
table
error 0 0 none
error 0 0 none
error 0 0 1
error 0 0 none
error 2 2 3
basket 0
new 0 2 1
collect 0 0
new 0 4 2
collect 0 0
raise_all 0 0 0 3
of 0
explicit 0 0 3 none
explicit 1 2 1 0
explicit 2 4 2 0
native 3 1 1 1
native 4 3 2 2
shown 0 0
shown 1 2
shown 2 1
shown 3 3
frame 0 0 3 none
frame 1 2 1 0
frame 2 4 2 0
case small-3-4-1-7
table
error 0 0 none
error 2 0 0
error 0 0 none
error 0 0 2
error 0 0 none
basket 0
new 0 4 1
raise 0 3 2
collect 0 0
raise_all 0 0 1 3
of 0
explicit 0 1 3 none
native 1 0 3 0
explicit 2 3 2 0
native 3 2 2 2
explicit 4 4 1 2
shown 0 0
shown 1 3
shown 2 2
shown 3 4
frame 0 1 3 none
frame 1 3 2 0
frame 2 4 1 1
case small-3-4-1-25
table
error 0 0 none
error 0 0 0
error 2 9 none
error 0 0 none
error 0 0 3
basket 0
new 0 4 1
raise 0 2 2
collect 0 0
raise_all 0 0 1 2520645385
of 0
explicit 0 1 2520645385 none
native 1 0 2520645385 0
explicit 2 2 2 0
explicit 3 4 1 2
native 4 3 1 3
shown 0 1
shown 1 0
shown 2 4
shown 3 3
frame 0 1 2520645385 none
frame 1 2 2 0
frame 2 4 1 1
case small-3-4-1-44
table
error 0 0 none
error 0 0 none
error 2 1 1
error 2 8 none
basket 0
new 0 3 1
collect 0 0
raise_all 0 0 2 2694596304
raise 0 0 2
of 0
explicit 0 0 2 none
explicit 1 2 2694596304 0
native 2 1 2694596304 1
explicit 3 3 1 1
shown 0 0
shown 1 1
frame 0 0 2 none
frame 1 2 2694596304 0
frame 2 3 1 1
case small-3-4-1-63
table
error 0 0 none
error 2 0 0
error 0 0 none
error 2 1 2
error 0 0 none
error 2 2 4
new 0 5 1
raise 0 3 1
raise 0 1 2
of 0
explicit 0 1 2 none
native 1 0 2 0
explicit 2 3 1 0
native 3 2 1 2
explicit 4 5 1 2
native 5 4 1 4
shown 0 0
shown 1 2
shown 2 4
frame 0 1 2 none
frame 1 3 1 0
frame 2 5 1 1
case order-1-0-chain-all
table
error 4 6 none
error 1 10 none
error 1 0 none
error 0 0 0
error 2 9 0
error 0 0 none
basket 0
new 0 0 0
collect 0 0
new 0 5 1
chain_all 0 0
of 0
explicit 0 5 1 none
explicit 1 0 0 0
shown 0 5
shown 1 0
frame 0 5 1 none
frame 1 0 0 0
case order-2-0-chain-all
table
error 4 6 none
error 1 10 none
error 1 0 none
error 0 0 0
error 2 9 0
error 0 0 none
basket 0
new 0 1 1
raise 0 3 2
collect 0 0
new 0 0 3
collect 0 0
new 0 5 4
chain_all 0 0
of 0
explicit 0 5 4 none
explicit 1 3 2 0
explicit 2 0 3 0
native 3 0 2 1
explicit 4 1 1 1
shown 0 5
shown 1 3
shown 2 0
shown 3 0
shown 4 1
frame 0 5 4 none
frame 1 3 2 0
frame 2 0 3 0
frame 3 1 1 1
case order-3-0-raise-all
table
error 4 6 none
error 1 10 none
error 1 0 none
error 0 0 0
error 2 9 0
error 0 0 none
basket 0
new 0 2 0
collect 0 0
new 0 1 1
raise 0 3 2
collect 0 0
new 0 0 3
collect 0 0
raise_all 0 0 5 4
of 0
explicit 0 5 4 none
explicit 1 2 0 0
explicit 2 3 2 0
explicit 3 0 3 0
native 4 0 2 2
explicit 5 1 1 2
shown 0 5
shown 1 2
shown 2 3
shown 3 0
shown 4 0
shown 5 1
frame 0 5 4 none
frame 1 2 0 0
frame 2 3 2 0
frame 3 0 3 0
frame 4 1 1 2
case order-3-1-raise-all
table
error 4 6 none
error 1 10 none
error 1 0 none
error 0 0 0
error 2 9 0
error 0 0 none
basket 0
basket 1
new 0 1 1
collect 1 0
raise_all 0 1 3 2
collect 0 0
new 0 2 3
collect 0 0
new 0 0 4
collect 0 0
raise_all 0 0 5 4
of 0
explicit 0 5 4 none
explicit 1 3 2 0
explicit 2 2 3 0
explicit 3 0 4 0
native 4 0 2 1
explicit 5 1 1 1
shown 0 5
shown 1 3
shown 2 2
shown 3 0
shown 4 0
shown 5 1
frame 0 5 4 none
frame 1 3 2 0
frame 2 2 3 0
frame 3 0 4 0
frame 4 1 1 1
case order-3-2-raise-all
table
error 4 6 none
error 1 10 none
error 1 0 none
error 0 0 0
error 2 9 0
error 0 0 none
basket 0
new 0 1 1
raise 0 3 1
collect 0 0
new 0 0 2
collect 0 0
new 0 2 3
collect 0 0
raise_all 0 0 5 4
of 0
explicit 0 5 4 none
explicit 1 3 1 0
explicit 2 0 2 0
explicit 3 2 3 0
native 4 0 1 1
explicit 5 1 1 1
shown 0 5
shown 1 3
shown 2 0
shown 3 2
shown 4 0
shown 5 1
frame 0 5 4 none
frame 1 3 1 0
frame 2 0 2 0
frame 3 2 3 0
frame 4 1 1 1
case order-3-3-chain
table
error 4 6 none
error 1 10 none
error 1 0 none
error 0 0 0
error 2 9 0
error 0 0 none
new 0 5 1
new 1 2 2
chain 0 1
new 1 0 3
chain 0 1
new 1 1 4
raise 1 3 5
chain 0 1
of 0
explicit 0 5 1 none
explicit 1 2 2 0
explicit 2 0 3 0
explicit 3 3 5 0
native 4 0 5 3
explicit 5 1 4 3
shown 0 5
shown 1 2
shown 2 0
shown 3 3
shown 4 0
shown 5 1
frame 0 5 1 none
frame 1 2 2 0
frame 2 0 3 0
frame 3 3 5 0
frame 4 1 4 3
case order-3-4-chain
table
error 4 6 none
error 1 10 none
error 1 0 none
error 0 0 0
error 2 9 0
error 0 0 none
new 0 5 1
new 1 0 2
chain 0 1
new 1 2 2004149729
chain 0 1
new 1 1 3
raise 1 3 3885394978
chain 0 1
of 0
explicit 0 5 1 none
explicit 1 0 2 0
explicit 2 2 2004149729 0
explicit 3 3 3885394978 0
native 4 0 3885394978 3
explicit 5 1 3 3
shown 0 5
shown 1 0
shown 2 2
shown 3 3
shown 4 0
shown 5 1
frame 0 5 1 none
frame 1 0 2 0
frame 2 2 2004149729 0
frame 3 3 3885394978 0
frame 4 1 3 3
case order-3-5-chain-all
table
error 4 6 none
error 1 10 none
error 1 0 none
error 0 0 0
error 2 9 0
error 0 0 none
basket 0
new 0 0 1
collect 0 0
basket 1
new 0 1 2953265220
collect 1 0
raise_all 0 1 3 2
collect 0 0
new 0 2 3
collect 0 0
new 0 5 4
chain_all 0 0
of 0
explicit 0 5 4 none
explicit 1 0 1 0
explicit 2 3 2 0
explicit 3 2 3 0
native 4 0 2 2
explicit 5 1 2953265220 2
shown 0 5
shown 1 0
shown 2 3
shown 3 2
shown 4 0
shown 5 1
frame 0 5 4 none
frame 1 0 1 0
frame 2 3 2 0
frame 3 2 3 0
frame 4 1 2953265220 2
case pairs-1-0
table
error 4 6 none
error 1 10 none
error 1 0 none
error 0 0 0
error 2 9 0
new 0 0 0
of 0
explicit 0 0 0 none
shown 0 0
frame 0 0 0 none
case pairs-2-1
table
error 4 6 none
error 1 10 none
error 1 0 none
error 0 0 0
error 2 9 0
new 0 0 1
new 1 1 2
raise 1 3 3
chain 1 0
of 1
explicit 0 3 3 none
native 1 0 3 0
explicit 2 1 2 0
explicit 3 0 1 0
shown 0 3
shown 1 0
shown 2 1
shown 3 0
frame 0 3 3 none
frame 1 1 2 0
frame 2 0 1 0
case pairs-3-1
table
error 4 6 none
error 1 10 none
error 1 0 none
error 0 0 0
error 2 9 0
new 0 0 1
new 1 1 2
raise 1 3 3
new 2 2 4
chain 0 1
chain 2 0
of 2
explicit 0 2 4 none
explicit 1 0 1 0
explicit 2 3 3 1
native 3 0 3 2
explicit 4 1 2 2
shown 0 2
shown 1 0
shown 2 3
shown 3 0
shown 4 1
frame 0 2 4 none
frame 1 0 1 0
frame 2 3 3 1
frame 3 1 2 2
case pairs-3-2
table
error 4 6 none
error 1 10 none
error 1 0 none
error 0 0 0
error 2 9 0
new 0 0 1
new 1 1 2076684979
raise 1 3 2
new 2 2 3
chain 0 2
chain 0 1
of 0
explicit 0 0 1 none
explicit 1 2 3 0
explicit 2 3 2 0
native 3 0 2 2
explicit 4 1 2076684979 2
shown 0 0
shown 1 2
shown 2 3
shown 3 0
shown 4 1
frame 0 0 1 none
frame 1 2 3 0
frame 2 3 2 0
frame 3 1 2076684979 2
case pairs-3-4
table
error 4 6 none
error 1 10 none
error 1 0 none
error 0 0 0
error 2 9 0
new 0 0 1
new 1 1 2004149729
raise 1 3 2
new 2 2 3
chain 1 0
chain 1 2
of 1
explicit 0 3 2 none
native 1 0 2 0
explicit 2 1 2004149729 0
explicit 3 0 1 0
explicit 4 2 3 0
shown 0 3
shown 1 0
shown 2 1
shown 3 0
shown 4 2
frame 0 3 2 none
frame 1 1 2004149729 0
frame 2 0 1 0
frame 3 2 3 0
case pairs-3-6
table
error 4 6 none
error 1 10 none
error 1 0 none
error 0 0 0
error 2 9 0
new 0 0 1
new 1 1 2
raise 1 3 3
new 2 2 3
chain 1 2
chain 0 1
of 0
explicit 0 0 1 none
explicit 1 3 3 0
native 2 0 3 1
explicit 3 1 2 1
explicit 4 2 3 1
shown 0 0
shown 1 3
shown 2 0
shown 3 1
shown 4 2
frame 0 0 1 none
frame 1 3 3 0
frame 2 1 2 1
frame 3 2 3 1
case pairs-3-7
table
error 4 6 none
error 1 10 none
error 1 0 none
error 0 0 0
error 2 9 0
new 0 0 0
new 1 1 1
raise 1 3 2
new 2 2 3
chain 1 2
chain 1 0
of 1
explicit 0 3 2 none
native 1 0 2 0
explicit 2 1 1 0
explicit 3 2 3 0
explicit 4 0 0 0
shown 0 3
shown 1 0
shown 2 1
shown 3 2
shown 4 0
frame 0 3 2 none
frame 1 1 1 0
frame 2 2 3 0
frame 3 0 0 0
case pairs-3-9
table
error 4 6 none
error 1 10 none
error 1 0 none
error 0 0 0
error 2 9 0
new 0 0 1
new 1 1 2
raise 1 3 3
new 2 2 2051596649
chain 2 0
chain 2 1
of 2
explicit 0 2 2051596649 none
explicit 1 0 1 0
explicit 2 3 3 0
native 3 0 3 2
explicit 4 1 2 2
shown 0 2
shown 1 0
shown 2 3
shown 3 0
shown 4 1
frame 0 2 2051596649 none
frame 1 0 1 0
frame 2 3 3 0
frame 3 1 2 2
case pairs-3-11
table
error 4 6 none
error 1 10 none
error 1 0 none
error 0 0 0
error 2 9 0
new 0 0 1855656557
basket 0
new 1 1 1
collect 0 1
raise_all 1 0 3 1
new 2 2 2
chain 2 1
chain 2 0
of 2
explicit 0 2 2 none
explicit 1 3 1 0
explicit 2 0 1855656557 0
native 3 0 1 1
explicit 4 1 1 1
shown 0 2
shown 1 3
shown 2 0
shown 3 0
shown 4 1
frame 0 2 2 none
frame 1 3 1 0
frame 2 0 1855656557 0
frame 3 1 1 1
case equal-0
table
error 0 0 none
error 0 0 0
error 1 255 none
error 2 10 0
basket 0
new 0 0 1
collect 0 0
new 0 0 2
collect 0 0
new 0 2 3
chain_all 0 0
of 0
explicit 0 2 3 none
explicit 1 0 1 0
explicit 2 0 2 0
shown 0 2
shown 1 0
shown 2 0
frame 0 2 3 none
frame 1 0 1 0
frame 2 0 2 0
case equal-2
table
error 0 0 none
error 0 0 0
error 1 255 none
error 2 10 0
new 0 0 1
raise 0 0 1
of 0
explicit 0 0 1 none
explicit 1 0 1 0
shown 0 0
shown 1 0
frame 0 0 1 none
frame 1 0 1 0
case equal-3
table
error 0 0 none
error 0 0 0
error 1 255 none
error 2 10 0
new 0 0 1
raise 0 0 2
raise 0 0 3
of 0
explicit 0 0 3 none
explicit 1 0 2 0
explicit 2 0 1 1
shown 0 0
shown 1 0
shown 2 0
frame 0 0 3 none
frame 1 0 2 0
frame 2 0 1 1
case equal-5
table
error 0 0 none
error 0 0 0
error 1 255 none
error 2 10 0
basket 0
new 0 1 1
collect 0 0
raise_all 0 0 1 2
of 0
explicit 0 1 2 none
native 1 0 2 0
explicit 2 1 1 0
native 3 0 1 2
shown 0 1
shown 1 0
shown 2 1
shown 3 0
frame 0 1 2 none
frame 1 1 1 0
case equal-6
table
error 0 0 none
error 0 0 0
error 1 255 none
error 2 10 0
basket 0
basket 1
new 0 0 0
collect 1 0
raise_all 0 1 1 1
collect 0 0
basket 1
new 0 0 1
collect 1 0
raise_all 0 1 1 2
collect 0 0
raise_all 0 0 2 3
of 0
explicit 0 2 3 none
explicit 1 1 1 0
explicit 2 1 2 0
native 3 0 1 1
explicit 4 0 0 1
native 5 0 2 2
explicit 6 0 1 2
shown 0 2
shown 1 1
shown 2 1
shown 3 0
shown 4 0
shown 5 0
shown 6 0
frame 0 2 3 none
frame 1 1 1 0
frame 2 1 2 0
frame 3 0 0 1
frame 4 0 1 2
case equal-8
table
error 0 0 none
error 0 0 0
error 1 255 none
error 2 10 0
basket 0
new 0 3 232635828
collect 0 0
new 0 3 0
collect 0 0
new 0 3 1
chain_all 0 0
of 0
explicit 0 3 1 none
native 1 0 1 0
explicit 2 3 232635828 0
explicit 3 3 0 0
native 4 0 232635828 2
native 5 0 0 3
shown 0 0
shown 1 0
shown 2 0
frame 0 3 1 none
frame 1 3 232635828 0
frame 2 3 0 0
case marker-root-0-2
table
error 0 0 none
error 0 0 0
error 2 2 none
error 2 9 2
error 2 8 none
new 0 3 1
of 0
explicit 0 3 1 none
native 1 2 1 0
frame 0 3 1 none
case marker-root-1-1
table
error 0 0 none
error 0 0 0
error 2 1 0
error 2 8 none
error 0 0 none
new 0 4 1
raise 0 2 2
of 0
explicit 0 2 2 none
native 1 0 2 0
explicit 2 4 1 0
shown 0 0
shown 1 4
frame 0 2 2 none
frame 1 4 1 0
case marker-root-1-4
table
error 0 0 none
error 0 0 0
error 2 4 0
error 2 9 2
error 2 8 3
error 2 7 4
error 2 8 none
error 0 0 none
basket 0
new 0 7 1
collect 0 0
raise_all 0 0 5 2
of 0
explicit 0 5 2 none
native 1 4 2 0
explicit 2 7 1 0
native 3 3 2 1
native 4 2 2 3
native 5 0 2 4
shown 0 7
shown 1 0
frame 0 5 2 none
frame 1 7 1 0
case marker-root-2-2
table
error 0 0 none
error 0 0 0
error 2 2 1
error 2 9 2
error 2 8 none
error 0 0 none
error 0 0 none
basket 0
new 0 5 1
collect 0 0
basket 1
new 0 6 2
collect 1 0
new 0 1 3
collect 1 0
raise_all 0 1 4 3263217476
collect 0 0
raise_all 0 0 3 4
of 0
explicit 0 3 4 none
native 1 2 4 0
explicit 2 5 1 0
explicit 3 4 3263217476 0
native 4 1 4 1
explicit 5 6 2 3
explicit 6 1 3 3
native 7 0 4 4
native 8 0 3 6
shown 0 5
shown 1 1
shown 2 6
shown 3 1
shown 4 0
shown 5 0
frame 0 3 4 none
frame 1 5 1 0
frame 2 4 3263217476 0
frame 3 6 2 2
frame 4 1 3 2
case marker-root-3-1
table
error 0 0 none
error 0 0 0
error 2 1 none
error 2 8 none
error 0 0 none
error 0 0 none
error 0 0 none
new 0 2 1
new 1 4 2
chain 0 1
basket 0
new 1 5 2
collect 0 1
new 1 1 3
collect 0 1
new 1 3 4
chain_all 1 0
chain 0 1
new 1 6 1930889255
chain 0 1
of 0
explicit 0 2 1 none
explicit 1 4 2 0
explicit 2 3 4 0
explicit 3 6 1930889255 0
explicit 4 5 2 2
explicit 5 1 3 2
native 6 0 3 5
shown 0 4
shown 1 6
shown 2 5
shown 3 1
shown 4 0
frame 0 2 1 none
frame 1 4 2 0
frame 2 3 4 0
frame 3 6 1930889255 0
frame 4 5 2 2
frame 5 1 3 2
case marker-root-3-4
table
error 0 0 none
error 0 0 0
error 2 4 none
error 2 9 2
error 2 8 3
error 2 7 4
error 2 8 none
error 0 0 none
error 0 0 none
error 0 0 none
basket 0
new 0 7 2725230559
collect 0 0
basket 1
new 0 8 1
collect 1 0
new 0 1 2
collect 1 0
raise_all 0 1 6 3
collect 0 0
new 0 9 4
collect 0 0
raise_all 0 0 5 5
of 0
explicit 0 5 5 none
native 1 4 5 0
explicit 2 7 2725230559 0
explicit 3 6 3 0
explicit 4 9 4 0
native 5 3 5 1
explicit 6 8 1 3
explicit 7 1 2 3
native 8 2 5 5
native 9 0 2 7
shown 0 7
shown 1 9
shown 2 8
shown 3 1
shown 4 0
frame 0 5 5 none
frame 1 7 2725230559 0
frame 2 6 3 0
frame 3 9 4 0
frame 4 8 1 2
frame 5 1 2 2
case mix-1-10
table
error 4 2 none
error 2 9 0
new 0 1 1
new 1 1 2
basket 0
collect 0 1
raise 0 1 3
new 1 0 559340485
chain 1 0
take 0 0
new 2 0 2582451969
chain 0 1
raise 2 0 4
raise 2 1 5
drop 2
of 0
explicit 0 1 2 none
native 1 0 2 0
explicit 2 0 559340485 0
explicit 3 1 3 2
native 4 0 3 3
explicit 5 1 1 3
native 6 0 1 5
shown 0 0
shown 1 0
shown 2 0
shown 3 0
frame 0 1 2 none
frame 1 0 559340485 0
frame 2 1 3 1
frame 3 1 1 2
case mix-1-11
table
error 0 0 none
error 4 4 0
error 1 2 none
new 0 2 1
of 0
explicit 0 2 1 none
shown 0 2
frame 0 2 1 none
case mix-1-40
table
error 1 5 none
error 3 0 none
error 1 255 none
error 4 2 0
error 1 6 none
error 3 0 none
error 3 0 none
error 4 3 6
error 0 0 7
error 3 0 none
new 0 7 1
of 0
explicit 0 7 1 none
native 1 6 1 0
shown 0 7
shown 1 6
frame 0 7 1 none
case io-1-6
table
error 4 5 none
error 2 5 none
error 4 2 none
error 4 11 2
error 4 13 none
error 4 11 2
error 0 0 5
error 4 11 5
new 0 2 1
raise 0 4 2
new 1 5 3
chain 0 1
of 0
explicit 0 4 2 none
explicit 1 2 1 0
explicit 2 5 3 0
native 3 2 3 2
shown 0 4
shown 1 2
shown 2 5
shown 3 2
frame 0 4 2 none
frame 1 2 1 0
frame 2 5 3 0
case io-1-15
table
error 0 0 none
error 4 1 0
error 4 2 1
error 4 2 none
error 4 0 none
error 4 10 3
error 1 7 none
error 4 2 none
error 0 0 5
error 2 9 8
error 4 2 9
basket 0
new 0 9 1
of 0
explicit 0 9 1 none
native 1 8 1 0
native 2 5 1 1
native 3 3 1 2
shown 0 8
shown 1 5
shown 2 3
frame 0 9 1 none
case io-1-18
table
error 1 10 none
error 4 14 0
error 4 8 1
error 4 2 none
error 4 8 1
error 4 5 3
error 4 2 5
new 0 2 1
raise 0 4 2
of 0
explicit 0 4 2 none
native 1 1 2 0
explicit 2 2 1 0
native 3 0 2 1
native 4 1 1 2
native 5 0 1 4
shown 0 4
shown 1 1
shown 2 2
shown 3 0
shown 4 1
shown 5 0
frame 0 4 2 none
frame 1 2 1 0
case io-1-21
table
error 4 2 none
error 4 12 none
error 4 1 0
error 4 1 none
error 2 6 2
error 4 2 3
error 4 14 4
error 1 10 none
error 2 3 7
error 4 2 7
error 4 2 9
error 4 4 9
basket 0
new 0 2 1
of 0
explicit 0 2 1 none
native 1 0 1 0
shown 0 2
shown 1 0
frame 0 2 1 none
case io-1-25
table
error 4 2 none
error 2 9 0
error 4 0 1
error 4 13 none
error 4 2 3
error 4 7 none
error 4 2 4
error 4 1 4
error 4 2 5
error 4 4 none
error 4 5 none
error 4 2 8
new 0 8 1
new 1 11 2
chain 0 1
drain_children 0 0
new 1 9 3
chain 0 1
raise 0 10 3
empty 0
basket 0
of 0
explicit 0 10 3 none
explicit 1 8 1 0
native 2 5 1 1
explicit 3 9 3 1
shown 0 10
shown 1 8
shown 2 5
shown 3 9
frame 0 10 3 none
frame 1 8 1 0
frame 2 9 3 1
case long-1-2
table
error 0 0 none
error 4 5 0
error 1 9 none
error 1 7 none
error 1 255 none
error 0 0 4
error 2 8 none
error 2 1 6
error 4 6 none
new 0 3 238786678
basket 0
raise 0 2 1
of 0
explicit 0 2 1 none
explicit 1 3 238786678 0
shown 0 2
shown 1 3
frame 0 2 1 none
frame 1 3 238786678 0
case long-1-7
table
error 1 4 none
error 1 4 none
error 0 0 1
error 3 0 none
error 1 255 none
error 4 4 3
error 0 0 none
error 2 5 4
error 0 0 none
error 0 0 7
new 0 9 1
raise 0 9 2
basket 0
raise 0 8 3774807688
raise 0 0 2091816386
raise 0 9 2
of 0
explicit 0 9 2 none
native 1 7 2 0
explicit 2 0 2091816386 0
native 3 4 2 1
explicit 4 8 3774807688 2
explicit 5 9 2 4
native 6 7 2 5
explicit 7 9 1 5
native 8 4 2 6
native 9 7 1 7
native 10 4 1 9
shown 0 9
shown 1 0
shown 2 4
shown 3 8
shown 4 9
shown 5 9
shown 6 4
shown 7 4
frame 0 9 2 none
frame 1 0 2091816386 0
frame 2 8 3774807688 1
frame 3 9 2 2
frame 4 9 1 3
case drive-1-12
drive
basket 0
new 0 37 1
of 0
explicit 0 37 1 none
native 1 21 1 0
native 2 5 1 1
shown 0 37
shown 1 21
shown 2 5
frame 0 37 1 none
case drive-1-13
drive
basket 0
new 0 17 1
new 1 12 2
drop 1
of 0
explicit 0 17 1 none
native 1 1 1 0
shown 0 17
shown 1 1
frame 0 17 1 none
";
