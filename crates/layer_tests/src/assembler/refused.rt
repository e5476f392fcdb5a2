//! Sources that are refused, for each rule of the language. How a row is read stands in `assembler.rt`.

/// In each row what a refusal prints.
pub(crate) const REFUSED: &str = "
# A carriage return elsewhere is a byte like others.
line 1: BadOperand <- nop\r
line 1: UnknownWord <- \r
line 1: BadOperand <- nop\r\r;\x20
# Space and tab alone are blanks.
line 1: BadOperand <- nop\u{b}
line 1: UnknownWord <- \u{c}nop
# A text in quotes that has no end reaches the end of the line.
line 2: BadOperand <- .data; .asciz \"a # b
line 1: BadOperand <- nop \"#\"
# The colon stands directly behind the label, and one label stands at the front.
line 1: UnknownWord <- x :nop
line 1: UnknownWord <- x: y: nop
line 1: BadOperand <- x: nop:
line 1: UnknownWord <- 1x: nop
line 1: UnknownWord <- a.b: nop
line 1: UnknownWord <- café: nop
line 2: UnknownLabel <- X: nop; j x
# Words.
line 1: UnknownWord <- foo
line 1: UnknownWord <- b :
line 1: UnknownWord <- ,
line 1: UnknownWord <- : nop
line 1: UnknownWord <- ADD a0, a0, a0
line 1: UnknownWord <- \"x\"
line 1: UnknownWord <- .bss
line 1: UnknownWord <- .text.data
line 1: UnknownWord <- nop.
line 1: UnknownWord <- foo ,
line 1: BadOperand <- li-5
line 1: BadOperand <- add(
line 1: BadOperand <- .data x
line 1: BadOperand <- nop a0
# Words that do not stand in a section.
line 1: UnknownWord <- .byte 1
line 1: UnknownWord <- .asciz \"x\"
line 1: UnknownWord <- .space 1
line 1: UnknownWord <- .word 1
line 1: UnknownWord <- .dword x,
line 2: UnknownWord <- .data; nop
line 2: UnknownWord <- .data; li a0
# Operands.
line 1: BadOperand <- mv a0
line 1: BadOperand <- add a0,,a1
line 1: BadOperand <- add a0, a1, a2,
line 1: BadOperand <- add a0, a1
line 1: BadOperand <- add a0 a1, a2
line 1: BadOperand <- nop ,
line 1: BadOperand <- j x,
line 1: BadOperand <- add a0, a1, a2, a3
line 1: BadOperand <- addi A0, a0, 1
line 1: BadOperand <- add x32, a0, a1
line 1: BadOperand <- add a0, x01, a1
line 1: BadOperand <- mv t7, a0
line 1: BadOperand <- mv a0, s12
line 1: BadOperand <- mv a8, a0
line 1: BadOperand <- addi a0, a0, a1
line 1: BadOperand <- add a0, a1, 2
line 1: BadOperand <- j 4
line 1: BadOperand <- j x y
line 1: BadOperand <- la a0, 4
line 1: BadOperand <- call 0
line 1: BadOperand <- beq a0, a1, 8
line 1: BadOperand <- jal ra, 8
line 1: BadOperand <- jal x
line 1: BadOperand <- lb a0, (a1)
line 1: BadOperand <- lb a0, 4
line 1: BadOperand <- lb a0, 4(a1
line 1: BadOperand <- lb a0, 4(5)
line 1: BadOperand <- lb a0, 4(a1)x
line 1: BadOperand <- lb a0, 4 5(a1)
line 1: BadOperand <- lb a0, 4(a1), a2
line 1: BadOperand <- sd 0(a1), a0
line 1: BadOperand <- jalr ra
line 1: BadOperand <- fence a0
line 1: BadOperand <- ret ra
line 1: BadOperand <- li a0
line 1: BadOperand <- li 0, a0
line 1: BadOperand <- mv a0, 1
# Numbers.
line 1: BadOperand <- li a0, +1
line 1: BadOperand <- li a0, 0X1
line 1: BadOperand <- li a0, - 1
line 1: BadOperand <- li a0, 1 2
line 1: BadOperand <- li a0, --1
line 1: BadOperand <- li a0, -
line 1: BadOperand <- li a0, 0x
line 1: BadOperand <- li a0, 0x-1
line 1: BadOperand <- li a0, 1f
line 1: BadOperand <- li a0, 0xg
line 1: BadOperand <- li a0, é
line 1: OutOfRange <- li a0, 99999999999999999999999999
line 1: OutOfRange <- li a0, -99999999999999999999999999
line 1: OutOfRange <- li a0, 0x10000000000000000
line 1: OutOfRange <- li a0, 5000000000
line 1: OutOfRange <- li a0, 2147483648
line 1: OutOfRange <- li a0, -2147483649
# One past each range of data.
line 2: OutOfRange <- .data; .byte -129
line 2: OutOfRange <- .data; .byte 256
line 2: OutOfRange <- .data; .word -2147483649
line 2: OutOfRange <- .data; .word 4294967296
line 2: OutOfRange <- .data; .dword -9223372036854775809
line 2: OutOfRange <- .data; .dword 18446744073709551616
line 2: OutOfRange <- .data; .space 65537
line 2: OutOfRange <- .data; .space -1
# Forms of data.
line 2: BadOperand <- .data; .byte
line 2: BadOperand <- .data; .byte 1,
line 2: BadOperand <- .data; .byte x
line 2: BadOperand <- .data; .byte \"a\"
line 2: BadOperand <- .data; .word x
line 2: BadOperand <- .data; .space x
line 2: BadOperand <- .data; .space 1, 2
line 2: BadOperand <- .data; .asciz
line 2: BadOperand <- .data; .asciz x
line 2: BadOperand <- .data; .asciz \"a\" x
line 2: BadOperand <- .data; .asciz \"a\", \"b\"
line 2: BadOperand <- .data; .asciz \"\\q\"
line 2: BadOperand <- .data; .asciz \"a
# In a line a duplicate label comes first, then the word, the form, the range.
line 2: DuplicateLabel <- a:; a: foo
line 3: DuplicateLabel <- a: nop; .data; a:
line 2: DuplicateLabel <- a:; a: mv a0
line 2: DuplicateLabel <- a:; a: addi a0, a0, 2048
line 1: UnknownWord <- foo a9, 5000
line 2: BadOperand <- .data; .byte 300, a0
line 1: BadOperand <- addi a9, a0, 5000
# The first pass comes first.
line 2: UnknownWord <- j x; foo
line 2: BadOperand <- j x; mv a0
line 2: OutOfRange <- j x; li a0, 5000000000
line 2: DuplicateLabel <- x: j y; x:
line 2: UnknownWord <- beq a0, a1, x; foo; .data; x:
line 1: UnknownLabel <- j x
line 1: UnknownLabel <- j x; j y
line 2: UnknownLabel <- nop; la a0, nowhere
line 2: UnknownLabel <- .data; .dword 1, a0
line 1: OutOfRange <- beq a0, a1, x; j y; .data; x:
# A byte too many.
line 17: OutOfRange <- .data; 15 times: .space 65536; .space 65417
line 19: OutOfRange <- nop; .data; 15 times: .space 65536; .space 65356; .byte 1
# Odd distances, and distances one step too far.
line 1: OutOfRange <- j x; .data; .byte 1; x:
line 1: OutOfRange <- beq a0, a1, x; .data; x:
line 1: OutOfRange <- bne a0, a1, x; .data; x:
line 1: OutOfRange <- blt a0, a1, x; .data; x:
line 1: OutOfRange <- bge a0, a1, x; .data; x:
line 1: OutOfRange <- bltu a0, a1, x; .data; x:
line 1: OutOfRange <- bgeu a0, a1, x; .data; x:
line 1: OutOfRange <- jal ra, x; .data; 15 times: .space 65536; .space 61440; x:
# A number one past an end of its range. GNU as refuses it too, but for `li`, which it takes up to 64 bits.
line 1: OutOfRange <- addi a0, a1, 2048
line 1: OutOfRange <- addi a0, a1, -2049
line 1: OutOfRange <- slti a0, a1, 2048
line 1: OutOfRange <- slti a0, a1, -2049
line 1: OutOfRange <- sltiu a0, a1, 2048
line 1: OutOfRange <- sltiu a0, a1, -2049
line 1: OutOfRange <- xori a0, a1, 2048
line 1: OutOfRange <- xori a0, a1, -2049
line 1: OutOfRange <- ori a0, a1, 2048
line 1: OutOfRange <- ori a0, a1, -2049
line 1: OutOfRange <- andi a0, a1, 2048
line 1: OutOfRange <- andi a0, a1, -2049
line 1: OutOfRange <- addiw a0, a1, 2048
line 1: OutOfRange <- addiw a0, a1, -2049
line 1: OutOfRange <- slli a0, a1, 64
line 1: OutOfRange <- slli a0, a1, -1
line 1: OutOfRange <- srli a0, a1, 64
line 1: OutOfRange <- srli a0, a1, -1
line 1: OutOfRange <- srai a0, a1, 64
line 1: OutOfRange <- srai a0, a1, -1
line 1: OutOfRange <- slliw a0, a1, 32
line 1: OutOfRange <- slliw a0, a1, -1
line 1: OutOfRange <- srliw a0, a1, 32
line 1: OutOfRange <- srliw a0, a1, -1
line 1: OutOfRange <- sraiw a0, a1, 32
line 1: OutOfRange <- sraiw a0, a1, -1
line 1: OutOfRange <- lb a0, 2048(a1)
line 1: OutOfRange <- lb a0, -2049(a1)
line 1: OutOfRange <- lh a0, 2048(a1)
line 1: OutOfRange <- lh a0, -2049(a1)
line 1: OutOfRange <- lw a0, 2048(a1)
line 1: OutOfRange <- lw a0, -2049(a1)
line 1: OutOfRange <- ld a0, 2048(a1)
line 1: OutOfRange <- ld a0, -2049(a1)
line 1: OutOfRange <- lbu a0, 2048(a1)
line 1: OutOfRange <- lbu a0, -2049(a1)
line 1: OutOfRange <- lhu a0, 2048(a1)
line 1: OutOfRange <- lhu a0, -2049(a1)
line 1: OutOfRange <- lwu a0, 2048(a1)
line 1: OutOfRange <- lwu a0, -2049(a1)
line 1: OutOfRange <- sb a0, 2048(a1)
line 1: OutOfRange <- sb a0, -2049(a1)
line 1: OutOfRange <- sh a0, 2048(a1)
line 1: OutOfRange <- sh a0, -2049(a1)
line 1: OutOfRange <- sw a0, 2048(a1)
line 1: OutOfRange <- sw a0, -2049(a1)
line 1: OutOfRange <- sd a0, 2048(a1)
line 1: OutOfRange <- sd a0, -2049(a1)
line 1: OutOfRange <- jalr a0, 2048(a1)
line 1: OutOfRange <- jalr a0, -2049(a1)
line 1: OutOfRange <- lui a0, 0x100000
line 1: OutOfRange <- lui a0, -1
line 1: OutOfRange <- auipc a0, 0x100000
line 1: OutOfRange <- auipc a0, -1
line 1: OutOfRange <- li a0, 2147483648
line 1: OutOfRange <- li a0, -2147483649
# A branch to a label 4100 bytes before it, the nearest that is too far. A jump's farthest label behind it, 1,048,576
# bytes away, doesn't fit in a file.
line 1027: OutOfRange <- x:; 1025 times: nop; beq t0, t1, x
line 1027: OutOfRange <- x:; 1025 times: nop; bne t0, t1, x
line 1027: OutOfRange <- x:; 1025 times: nop; blt t0, t1, x
line 1027: OutOfRange <- x:; 1025 times: nop; bge t0, t1, x
line 1027: OutOfRange <- x:; 1025 times: nop; bltu t0, t1, x
line 1027: OutOfRange <- x:; 1025 times: nop; bgeu t0, t1, x
";
