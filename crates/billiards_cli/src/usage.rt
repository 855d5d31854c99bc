/// What the command line may be, for standard error.
pub(crate) const USAGE: &str = "usage: mcb word | check | cover
       mcb at WORD P Q D
       mcb search P Q D B
       mcb tile WORD H
       mcb unfold WORD P Q D
       mcb job K | demo K
       mcb upgrade V
       mcb points WORD P Q D
       mcb merge
       mcb path WORD P Q D [svg]
       mcb family A B C [P Q D]
       mcb draw
";
