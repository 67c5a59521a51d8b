// The commands that build a file:
//
//     new LEN                 LEN zeros
//     size LEN                the first LEN bytes
//     bytes AT: BYTES         these bytes at AT; they are put while the line is read
//     word AT N, quad AT N    the number N in 4 or 8 bytes
//     random AT COUNT SEED    byte i of these is (SEED + i) * 40503 / 997, its lowest eight bits

fn clear(f: &mut [u8; 262144]) {
    *f = [0u8; 262144];
}

fn put(f: &mut [u8; 262144], at: usize, n: u64) {
    f[at % 262144] = (n % 256) as u8;
}

fn word(f: &mut [u8; 262144], place: u64, n: u64) {
    let at = place as usize % 262144;
    put(f, at, n);
    put(f, at + 1, n / 256);
    put(f, at + 2, n / 65536);
    put(f, at + 3, n / 16777216);
}

fn quad(f: &mut [u8; 262144], at: u64, n: u64) {
    word(f, at, n);
    word(f, at % 262144 + 4, n / 4294967296);
}

fn noise(f: &mut [u8; 262144], at: u64, seed: u64, i: u64) {
    let k = i % 262144;
    put(
        f,
        (at % 262144 + k) as usize,
        (seed % 65536 + k) * 40503 / 997,
    );
}

fn random(f: &mut [u8; 262144], at: u64, count: u64, seed: u64) {
    for i in 0..count {
        noise(f, at, seed, i);
    }
}

fn change(command: u8, f: &mut [u8; 262144], n: &[u64; 8]) {
    match command {
        b'n' => clear(f),
        b'w' => word(f, n[1], n[2]),
        b'q' => quad(f, n[1], n[2]),
        b'r' => random(f, n[1], n[2], n[3]),
        _ => {}
    }
}

// Does what the command says, and hands back the file's length.
pub fn build(command: u8, len: usize, f: &mut [u8; 262144], n: &[u64; 8]) -> usize {
    change(command, f, n);
    match command {
        b'n' | b's' => n[1] as usize,
        _ => len,
    }
}
