//! Sources that are taken, for each rule of the language. How a row is read stands in `assembler.rt`.

/// In each row how many bytes a source's file has, and its last bytes.
pub(crate) const TAKEN: &str = "
# Whole sources.
132 930820001305000073000000 <- li a7, 2; li a0, 0; ecall
128 372501001b055534 <- li a0, 0x12345
185 171500001305050007 <- la a0, x; .data; x: .byte 7
# Lines end at a line feed; a carriage return before it is dropped.
64 <-\x20
64 <- \r; ;\x20
128 1300000013000000 <- nop\r; nop
124 13000000 <- nop;\x20
124 13000000 <- nop; ; ;\x20
# Blanks are free between parts.
124 3385f401 <- \t x:\tadd\ta0 ,\ts1,t6\x20
124 03860180 <- lb a2 ,\t-2048 ( gp )
# A comment begins outside a text in quotes alone.
124 61236200 <- .data; .asciz \"a#b\" # c \"d
125 6122236200 <- .data; .asciz \"a\\\"#b\"
64 <- # café
64 <- x: # \"
124 13000000 <- nop#x
# A label may have the name of a word or of a register.
124 6f000000 <- add: j add
124 ef000000 <- ra: jal ra, ra
124 6f000000 <- _: j _
124 6f000000 <- x1_Y9: j x1_Y9
64 <- nop:
# On a line that switches sections it names the place before the switch.
188 0400000000000000 <- nop; x: .data; .dword x
188 0010000000000000 <- nop; .data; x: .dword x
189 070110000000000000 <- .data; .byte 7; x: .text; nop; .data; .dword x
# Nothing need stand between a word and its operands.
122 7800 <- .data; .asciz\"x\"
# A label stands where a register's name does.
124 6300b500 <- a0: beq a0, a1, a0
# Numbers.
124 13050000 <- li a0, -0
124 13057000 <- li a0, 007
124 13057000 <- li a0, 0000000000000000000000000000000000000007
124 1305f00f <- li a0, 0xfF
124 130500ff <- li a0, -0x10
128 371000001b008038 <- li x0, 5000
# Values of data.
123 80ff01 <- .data; .byte -128, 255, 1
128 00000080ffffffff <- .data; .word -2147483648, 4294967295
136 0000000000000080ffffffffffffffff <- .data; .dword -9223372036854775808, 18446744073709551615
196 00100000000000000500000000000000 <- nop; .data; x: .dword x, 5
64 <- .data; .space 0
121 00 <- .data; .asciz \"\"
65656 0000000000000000 <- .data; .space 0; .space 65536
129 0a09005c22612c6200 <- .data; .asciz \"\\n\\t\\0\\\\\\\"a,b\"
123 c3a900 <- .data; .asciz \"é\"
# A file of 1,048,576 bytes.
1048576 0000000000000000 <- .data; 15 times: .space 65536; .space 65416
# The farthest branch and jump, and an address past both.
186 e38f627e0000 <- nop; beq t0, t1, x; .data; .byte 0, 0; x:
186 e39f627e0000 <- nop; bne t0, t1, x; .data; .byte 0, 0; x:
186 e3cf627e0000 <- nop; blt t0, t1, x; .data; .byte 0, 0; x:
186 e3df627e0000 <- nop; bge t0, t1, x; .data; .byte 0, 0; x:
186 e3ef627e0000 <- nop; bltu t0, t1, x; .data; .byte 0, 0; x:
186 e3ff627e0000 <- nop; bgeu t0, t1, x; .data; .byte 0, 0; x:
1044662 eff0ff7f <- jal ra, x; .data; 15 times: .space 65536; .space 61438; x: .word 0x7FFFF0EF
1044664 0000000000000000 <- la a0, x; .data; 15 times: .space 65536; .space 61440; x:
# Labels 4096 bytes before a branch, and 2044 to 2052 and 6144 to 6148 bytes away from an address: there its lower part
# changes its sign. The words are those of GNU as.
4220 63806280 <- x:; 1024 times: nop; beq t0, t1, x
4220 63906280 <- x:; 1024 times: nop; bne t0, t1, x
4220 63c06280 <- x:; 1024 times: nop; blt t0, t1, x
4220 63d06280 <- x:; 1024 times: nop; bge t0, t1, x
4220 63e06280 <- x:; 1024 times: nop; bltu t0, t1, x
4220 63f06280 <- x:; 1024 times: nop; bgeu t0, t1, x
2176 1705000013050580 <- x:; 512 times: nop; la a0, x
2180 17f5ffff1305c57f <- x:; 513 times: nop; la a0, x
6272 17f5ffff13050580 <- x:; 1536 times: nop; la a0, x
6276 17e5ffff1305c57f <- x:; 1537 times: nop; la a0, x
2180 170500001305c57f <- 513 times: nop; la a0, x; .data; x:
2176 1715000013050580 <- 512 times: nop; la a0, x; .data; x:
";
