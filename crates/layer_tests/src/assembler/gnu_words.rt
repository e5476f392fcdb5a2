//! Instructions with their words, as GNU as for RISC-V spells them.
//!
//! Made with `riscv64-unknown-elf-as -march=rv64i -mabi=lp64 -mno-relax` (GNU Binutils), one line at a time, under
//! `.option norvc`; `riscv64-unknown-elf-ld --no-relax -Ttext=0`; `riscv64-unknown-elf-objcopy -O binary -j .text`;
//! and the bytes of the words printed in hexadecimal. Immediates and shifts stand at both ends of their ranges, and each
//! name of a register once. Only `call` is another: GNU as makes two words of it, so its row is that of `jal ra`.

/// In each row how many bytes a line's file has, and its last bytes, as in `taken.rt`.
pub(crate) const SPELLED: &str = "
124 3385f401 <- add a0, s1, t6
124 3385f441 <- sub a0, s1, t6
124 3395f401 <- sll a0, s1, t6
124 33a5f401 <- slt a0, s1, t6
124 33b5f401 <- sltu a0, s1, t6
124 33c5f401 <- xor a0, s1, t6
124 33d5f401 <- srl a0, s1, t6
124 33d5f441 <- sra a0, s1, t6
124 33e5f401 <- or a0, s1, t6
124 33f5f401 <- and a0, s1, t6
124 3b85f401 <- addw a0, s1, t6
124 3b85f441 <- subw a0, s1, t6
124 3b95f401 <- sllw a0, s1, t6
124 3bd5f401 <- srlw a0, s1, t6
124 3bd5f441 <- sraw a0, s1, t6
124 33800f01 <- add x0, x31, x16
124 33802000 <- add zero, ra, sp
124 b3015200 <- add gp, tp, t0
124 33838300 <- add t1, t2, s0
124 b304b500 <- add s1, a0, a1
124 3386e600 <- add a2, a3, a4
124 b3071801 <- add a5, a6, a7
124 33894901 <- add s2, s3, s4
124 b30a7b01 <- add s5, s6, s7
124 338cac01 <- add s8, s9, s10
124 b30dde01 <- add s11, t3, t4
124 338f8f00 <- add t5, t6, fp
124 33802000 <- add x0, x1, x2
124 b3015200 <- add x3, x4, x5
124 33838300 <- add x6, x7, x8
124 b304b500 <- add x9, x10, x11
124 3386e600 <- add x12, x13, x14
124 b3071801 <- add x15, x16, x17
124 33894901 <- add x18, x19, x20
124 b30a7b01 <- add x21, x22, x23
124 338cac01 <- add x24, x25, x26
124 b30dde01 <- add x27, x28, x29
124 338f0f00 <- add x30, x31, x0
124 93850280 <- addi a1, t0, -2048
124 9385f27f <- addi a1, t0, 2047
124 93a50280 <- slti a1, t0, -2048
124 93a5f27f <- slti a1, t0, 2047
124 93b50280 <- sltiu a1, t0, -2048
124 93b5f27f <- sltiu a1, t0, 2047
124 93c50280 <- xori a1, t0, -2048
124 93c5f27f <- xori a1, t0, 2047
124 93e50280 <- ori a1, t0, -2048
124 93e5f27f <- ori a1, t0, 2047
124 93f50280 <- andi a1, t0, -2048
124 93f5f27f <- andi a1, t0, 2047
124 9b850280 <- addiw a1, t0, -2048
124 9b85f27f <- addiw a1, t0, 2047
124 931d0100 <- slli s11, sp, 0
124 931df103 <- slli s11, sp, 63
124 935d0100 <- srli s11, sp, 0
124 935df103 <- srli s11, sp, 63
124 935d0140 <- srai s11, sp, 0
124 935df143 <- srai s11, sp, 63
124 9b1d0100 <- slliw s11, sp, 0
124 9b1df101 <- slliw s11, sp, 31
124 9b5d0100 <- srliw s11, sp, 0
124 9b5df101 <- srliw s11, sp, 31
124 9b5d0140 <- sraiw s11, sp, 0
124 9b5df141 <- sraiw s11, sp, 31
124 03860180 <- lb a2, -2048(gp)
124 0386f17f <- lb a2, 2047(gp)
124 03960180 <- lh a2, -2048(gp)
124 0396f17f <- lh a2, 2047(gp)
124 03a60180 <- lw a2, -2048(gp)
124 03a6f17f <- lw a2, 2047(gp)
124 03b60180 <- ld a2, -2048(gp)
124 03b6f17f <- ld a2, 2047(gp)
124 03c60180 <- lbu a2, -2048(gp)
124 03c6f17f <- lbu a2, 2047(gp)
124 03d60180 <- lhu a2, -2048(gp)
124 03d6f17f <- lhu a2, 2047(gp)
124 03e60180 <- lwu a2, -2048(gp)
124 03e6f17f <- lwu a2, 2047(gp)
124 2300d280 <- sb a3, -2048(tp)
124 a30fd27e <- sb a3, 2047(tp)
124 2310d280 <- sh a3, -2048(tp)
124 a31fd27e <- sh a3, 2047(tp)
124 2320d280 <- sw a3, -2048(tp)
124 a32fd27e <- sw a3, 2047(tp)
124 2330d280 <- sd a3, -2048(tp)
124 a33fd27e <- sd a3, 2047(tp)
124 67030780 <- jalr t1, -2048(a4)
124 6703f77f <- jalr t1, 2047(a4)
124 b7070000 <- lui a5, 0
124 b7f7ffff <- lui a5, 0xFFFFF
124 97070000 <- auipc a5, 0
124 97f7ffff <- auipc a5, 0xFFFFF
124 0f00f00f <- fence
124 73000000 <- ecall
124 73001000 <- ebreak
124 13000000 <- nop
124 13090800 <- mv s2, a6
124 67800000 <- ret
124 93080000 <- li a7, 0
124 93081000 <- li a7, 1
124 9308f0ff <- li a7, -1
124 9308f07f <- li a7, 2047
124 93080080 <- li a7, -2048
128 b71800009b880880 <- li a7, 2048
128 b7f8ffff9b88f87f <- li a7, -2049
124 b7180000 <- li a7, 4096
128 b72801009b885834 <- li a7, 0x12345
128 b71800009b88f8ff <- li a7, 4095
128 b7f8ff7f9b88f87f <- li a7, 2147481599
128 b70800809b880880 <- li a7, 2147481600
128 b70800809b88f8ff <- li a7, 2147483647
124 b7080080 <- li a7, -2147483648
128 b70800809b88f87f <- li a7, -2147481601
128 b71800809b880880 <- li a7, -2147481600
124 b7f8ffff <- li a7, -4096
128 b76834129b880880 <- li a7, 0x12345800
128 6302740063007400 <- beq s0, t2, x; x: beq s0, t2, x
128 13000000e30e74fe <- x: nop; beq s0, t2, x
128 6312740063107400 <- bne s0, t2, x; x: bne s0, t2, x
128 13000000e31e74fe <- x: nop; bne s0, t2, x
128 6342740063407400 <- blt s0, t2, x; x: blt s0, t2, x
128 13000000e34e74fe <- x: nop; blt s0, t2, x
128 6352740063507400 <- bge s0, t2, x; x: bge s0, t2, x
128 13000000e35e74fe <- x: nop; bge s0, t2, x
128 6362740063607400 <- bltu s0, t2, x; x: bltu s0, t2, x
128 13000000e36e74fe <- x: nop; bltu s0, t2, x
128 6372740063707400 <- bgeu s0, t2, x; x: bgeu s0, t2, x
128 13000000e37e74fe <- x: nop; bgeu s0, t2, x
128 6f04800013000000 <- jal s0, x; nop; x:
128 130000006ff4dfff <- x: nop; jal s0, x
128 6f00800013000000 <- j x; nop; x:
128 130000006ff0dfff <- x: nop; j x
128 ef00800013000000 <- call x; nop; x:
132 170500001305850013000000 <- la a0, x; x: nop
132 13000000170500001305c5ff <- x: nop; la a0, x
";
