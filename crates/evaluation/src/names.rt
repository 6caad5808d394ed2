// What an expression may name.
ghost use Rattle.evaluation.specs.Envs.{EnvFits};

// The types that a rule's expressions may name, and the values: of the four inputs, then of the four variables.
#[derive(Clone, Copy)]
pub struct Env {
    pub types: [u8; 16],
    pub vals: [i64; 8],
    pub ghost fits: { EnvFits vals types },
}
