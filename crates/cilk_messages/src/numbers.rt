//! The numbers of the tool and their meanings, as texts.

/// The text of `explain`: each number, and the mistake in a few words.
pub const TITLES: &str = "\
101  a byte over 127
102  no token begins here
103  no text of the language continues like this
104  nested too deep, or too many operators
105  a number over 9223372036854775807
106  a text of more than 262,144 bytes
111  an unknown name
112  a name declared twice
113  a wrong count of arguments
114  a name of another kind
115  no `int main()`
116  a `return` inside a `cilk_for`
117  a write to a `cilk_for`'s variable
118  a local reducer that isn't first
119  past a limit of the language
121  no number of the input
122  more than 65,536 numbers of input
201  division by zero
202  an index outside its array
203  a place outside the input
204  too many events or ticks
205  too many frames
206  too many cells
301  not a line of a certificate
302  the certificate ends too early
303  an event of another run
304  a wrong frame
305  a wrong strand
306  a wrong Hebrew number
307  a wrong peer class
308  a wrong source
309  a wrong result
310  a run that stops by a fault
311  a determinacy race
312  a view-read race
502  an input that leaves the plan of the certified run
";

/// For each number six lines, and an empty line between two of them: the number; the mistake in a
/// sentence or two; an example, whose first word says what it is; the line that the tool writes for
/// it; how to read the places in such a line; and the advice.
///
/// An example is a `program` (a whole text without input; for a refusal, with the certificate of its
/// own run), an `edit` of the certificate of `examples/race.c`, or something else in `words`.
pub const NUMBERS: &str = "\
101
A letter or mark outside ASCII stands outside comments and skipped lines.
program int main(){return \u{e9};}
program 101 at 18
a byte over 127 outside comments and skipped lines
Names have letters, digits and `_` of ASCII; anything else may stand in comments.

102
A mark or word of the text isn't one of the language, a comment isn't closed, or a `#` line is neither `#include` nor `#pragma`.
program int main(){return 007;}
program 102 at 18
no token begins here: the first byte of the word or mark; an unclosed comment at its `/*`; a `#` line that isn't skipped at its `#`
A number doesn't begin with 0, and a comment ends with `*/`. Strings, `#define`, `? :`, `&` and fractions aren't part of the language (`docs/FROM-CILK.md`).

103
The token at the place fits none of the forms that could stand there, or the text ends too early.
program int main(){return 0}
program 103 at 19
the first byte of the token that no text of the language has here, or the text's length where it ends too early
Write what is wanted there, or look at what comes before it. Calls inside expressions, other types and `break` are no part of the language (`docs/FROM-CILK.md` has what stands for them).

104
A statement or a part of an expression stands in 64 others already, or an expression has 256 operators already.
words `int main(){` and 66 `{`
program 104 at 76
the first byte of the part that is 65 deep, or the 257th operator of one expression
Put a part into a function of its own, or into a variable.

105
A number is at most 9223372036854775807: it has 64 bits, of which one is the sign.
program int main(){return 9223372036854775808;}
program 105 at 18
the first digit of a number over 9223372036854775807
The least number is written `-9223372036854775807 - 1`; where a global is to open with it, `main` sets it. Of what is greater, count in a greater unit, or keep it in two variables, as its billions and the rest.

106
A program text has at most 262,144 bytes, its comments and blanks among them.
words a text of 262,145 bytes
program 106 at 262144
the first byte past the limit
Numbers belong in the input: `--input FILE`, `input(k)`.

111
Nothing declares this name where it stands: a variable is known from its declaration to the end of its block.
program int main(){return x;}
program 111 at 18
an unknown name
Declare it before, or look how it is written.

112
Two declarations of one scope have this name; functions, globals and global reducers share a scope.
program int g; int g; int main(){return 0;}
program 112 at 11
the second name of two that are declared in one scope
Give the second another name.

113
The function takes more or fewer arguments than the call gives.
program void f(){} int main(){f(1);return 0;}
program 113 at 22
a wrong count of arguments, at the called name
Give one argument for each parameter.

114
A name stands for another kind of thing than its place wants: an array has an index and nothing else has one, a function is called, a reducer is updated, set or read by `value`, and a `return` has a number exactly in an `int` function.
program int main(){return main;}
program 114 at 18
a name of a wrong kind, at the name: an array without index, an index on no array, a function or reducer as a variable, a call of no function, a void call that is assigned, `update`, `set` or `value` of no reducer, an argument that is no reducer of the parameter's monoid (at its first byte), another name in the second or third part of a `cilk_for` head; `return e` in a void function and `return;` in an int function at the `return`
An element is `a[i]`. A reducer is read by `value(r)`, and written by `update(r, e)` and `set(r, e)`; as an argument it goes to a parameter of the same monoid. A function is called, and the call of a `void` one is a statement of its own. The second and third part of a `cilk_for` head have its own variable. `return e;` stands in an `int` function, `return;` in a `void` one.

115
A program begins in a function `int main()` without parameters, and the text has none.
program int g;
program 115 at 6
no `int main` without parameters: the text's length
Numbers from outside come by `input(k)` and `input_count()`, not by `argc` and `argv`.

116
The turns of a `cilk_for` run in parallel, and none can end the function.
program int main(){cilk_for(int i=0;i<1;i++){if(i)return 1;}return 0;}
program 116 at 42
a `return` inside a `cilk_for`
Keep what was found in a reducer, `min` or `max`, and return after the loop.

117
Each turn has its own variable, which only the loop counts on.
program int main(){cilk_for(int i=0;i<1;i++){i=2;}return 0;}
program 117 at 37
a `cilk_for`'s variable that is written, at its name
Copy it: `int j = i;`.

118
A frame creates its reducers as it begins, so their declarations come before all else in a function's own block.
program int main(){;int cilk_reducer(add) s;return 0;}
program 118 at 34
a local reducer that isn't first in a function's block, at its name
Move the declaration to the function's first line; where it began anew, as in each turn of a loop, write `set(r, 0);`.

119
At most 1,024 functions with 16 parameters each, 256 variables of a function or of a loop body, 64 reducers, arrays of 1 to 1,000,000 elements, and 1,000,000 global variables and elements in all.
program int a[0];int main(){return 0;}
program 119 at 4
over a limit of the program, at the declared name
An array has at least 1 element. Of what is too many: pack what is bounded into the digits of one number, or read parts of the input one after the other; let a global array stand for many variables, parameters or reducers, and a function of its own for a part of another one.

121
The input has numbers from -9223372036854775808 to 9223372036854775807, with blanks or line ends between them.
words the input `x`
input 121 at 0
the first byte of a word that is no number in range
Leave commas, points and words away, and give whole numbers from -9223372036854775808 to 9223372036854775807.

122
The place is the first byte of the 65,537th number.
words 65,537 words `0`
input 122 at 131072
the first byte of the 65,537th word
Pack several numbers into the digits of one, or give the rest to a further run.

201
A `/` or `%` has 0 on its right.
program int main(){return 1 % 0;}
fault 201 at 2
division by zero, in place of the event at this position (events count from 1)
Ask first: `if (b != 0) { q = a / b; }`.

202
An array of n elements has the indices 0 to n - 1.
program int a[1];int main(){return a[1];}
fault 202 at 2
an index outside its array
Look at the bounds of the loops around it, and at a product that is past its word: numbers wrap at 64 bits.

203
`input(k)` asks for number k of the input, from 0, and the input has fewer; without `--input FILE` it has none.
words `int main(){return input(0);}` without input
fault 203 at 2
an input place outside
Give the numbers by `--input FILE`, or ask `input_count()` first.

204
A run has at most 1,000,000 events (reads, writes, calls, syncs and the like) and 16,000,000 ticks of work. A loop without an end comes to this, too.
program int main() { while (1) { print(1); } return 0; }
fault 204 at 1000001
too many events, or too many ticks, in place of this event
See that each loop ends. On a smaller input `measure` shows which function or loop makes the most events: each read and each write of a variable or an element is one. Keep less in variables on the way, do less for each element, or take a smaller size: a limit is met in proportion to what the run does.

205
A run begins at most 65,536 frames: one for each call and each spawn, and 2 n - 1 for a `cilk_for` of n turns. A recursion without an end comes to this, too.
program void f() { f(); } int main() { f(); return 0; }
fault 205 at 131072
too many frames, in place of this call or spawn
See that each recursion ends. Let each turn of a `cilk_for` do a block of turns by a serial loop (`docs/FROM-CILK.md`, \"Many turns, in blocks\"), and let a loop do what is left where that is little, in place of a call or a spawn: a frame that has ended counts as well.

206
A run has at most 1,048,576 cells: the globals, and the parameters and variables of each frame that has begun.
program int a[1000000];void f(int x){int y;f(x);}int main(){f(1);return 0;}
fault 206 at 121442
too many cells, in place of this call or spawn
See that each recursion ends. Make global arrays shorter, let functions that are called often have fewer variables and parameters, and call them less often: the cells of a frame that has ended count as well.

301
The line isn't in the form of certificates, or comes after the last one (`docs/CERTIFICATES.md`).
edit `size 15 2 6` made `size 015 2 6`
refused 301 2
this line isn't in the grammar of certificates, or comes after the last one
Let `certify` write the certificate anew.

302
The certificate has no line here, or no line end.
edit the last line left out
refused 302 27
the text ends before this line does
Let `certify` write the certificate anew.

303
The program's run has another event at this position, or only one of the two has one there.
edit `write 0 1` made `write 0 2`
refused 303 7
the run has another event at this position, or only one of the two has one there
The certificate belongs to another program or input, or was changed: let `certify` write it anew.

304
A frame is listed with the frame that invoked it and its number among what that one invoked, and the run has another.
edit `frame 2 1 1` made `frame 2 1 2`
refused 304 2
the line of this frame is wrong, missing or too many
The certificate was changed, or belongs to another program or input: let `certify` write it anew.

305
A strand is listed with its frame, and the run has another.
edit `strand 4 1 2 4` made `strand 4 2 2 4`
refused 305 4
this strand has another frame, is missing or too many
The certificate was changed, or belongs to another program or input: let `certify` write it anew.

306
The Hebrew number of a strand counts strands where parallel parts are visited from the right; the run has another number.
edit `strand 2 2 3 2` made `strand 2 2 4 2`
refused 306 2
the Hebrew number of this strand is wrong
The certificate was changed, or belongs to another program or input: let `certify` write it anew.

307
Strands have one peer class exactly where the same strands are parallel to them; the run has another class.
edit `strand 4 1 2 4` made `strand 4 1 2 3`
refused 307 4
the peer class of this strand is wrong
The certificate was changed, or belongs to another program or input: let `certify` write it anew.

308
A read is listed with the position of the last earlier write of its cell, or 0 for none; the run has another.
edit `read 0 1 7` made `read 0 1 2`
refused 308 10
the last earlier write of the cell that is read at this position is another
The certificate was changed, or belongs to another program or input: let `certify` write it anew.

309
The program's result is another.
edit `result 1` made `result 2`
refused 309
the result is another
The certificate belongs to another program or input, or was changed: let `certify` write it anew.

310
A fault stops the run in place of the event at this position, and only a run that ends has a certificate. `run` names the fault.
words `int main(){return 1 % 0;}` with a certificate whose first event is `begin 1`
refused 310 2
a fault stops the run in place of the event at this position
Mend the program, or give it another input.

311
Two events touch one variable or element, at least one of them writes it, and nothing orders them: another schedule may give another answer.
program int x; void f(){x=1;} int main(){cilk_spawn f();x=2;cilk_sync;return x;}
refused 311 4 8
a determinacy race of these two positions, the earlier one first
Put a `cilk_sync` between the two, give each strand a variable of its own, or let a reducer take what they add up.

312
A reducer is read or set where updates that may come before or after it still run: what it shows then depends on the schedule.
program int cilk_reducer(add) r; void f(){update(r,1);} int main(){cilk_spawn f();print(value(r));cilk_sync;return 0;}
refused 312 2 9
a view-read race: the reducer's creation and a `set` or `value` of it
Read and set a reducer before the first spawn, or after the `cilk_sync`, and in no call that is itself spawned.

502
`threads` runs a program by the plan of its certified run; on the numbers of `--on FILE` the program comes to another event at this position, or to a fault.
words `int a[4];int main(){cilk_for(int i=0;i<4;i++){a[i]=input(i)*input(i);}return a[0]+a[3];}` with the certificate of its run on `1 2 3 4`, by `threads` on `5 6 7`
refused 502 46
the position of the certified run at which the run on the other numbers departs from it
Certify the program on those numbers, and run it by that certificate.";
