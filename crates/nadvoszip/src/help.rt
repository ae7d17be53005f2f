// The pages that --help prints.

pub const GENERAL: &str = "\
usage: nadvoszip [COMMAND]

  pack      instruction text from standard input into packed words
  list      instruction text or packed words into a listing
  COMMAND --help explains a command and the text that it reads

Without a command a built-in program of an order controller is shown as text, packed,
unpacked again and listed.
Unreadable input is told in one line on standard error, and the status is then 1.
";

pub const PACK: &str = "\
usage: nadvoszip pack < TEXT

Prints a packed word for each instruction: 0x and 16 hex digits.

A line of the text has one instruction; # starts a comment. At most 1,024 instructions.
  halt                      beq a b TARGET       early W d [a+N]
  const d NUMBER            bne a b TARGET       check d a BLOCK
  add d a b  (sub and or    jump TARGET          take d a
    xor shl shr below)                           reload W d [a+N] b
  load W d [a+N]                                 back POSITION
  store W [a+N] b
Registers are r0 to r63, numbers decimal or 0x and hex digits, up to 65535. W is 1, 2 or 4 bytes.
An address is [r1], [r1+4] or [r1-4], the offset from -32768 to 32767.
TARGET is a place, counted from 0, or a label; 'label:' before an instruction, or alone on a
line, names the place of the next instruction. A last word @H sets the home, 0 to 1023.
A line that begins with 0x is a packed word and stands for itself.
The lines of a listing are read too: place and text must agree with the word.
";

pub const LIST: &str = "\
usage: nadvoszip list < TEXT

Prints a line for each instruction or packed word of the text: its place, its word and the
instruction, or why the word is none.
  PLACE  0xWORD  TEXT
  PLACE  0xWORD  refused N: WHY
The refusals are 11 for the kind, 12 for the width, 13 for a register and 14 for the rest.
The instruction is in the form that pack reads, with the home where it is not 0, so that a
listing can be packed again. nadvoszip pack --help explains the text.
";
