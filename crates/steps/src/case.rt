// A step with its answer, and a load with its refusal, as tables hold them. Words are written as label:payload.
use languages::answers::Stepped;
use languages::refusal::Refusal;

#[derive(Clone, Copy)]
pub struct Case {
    pub name: &'static str,
    pub before: &'static str,
    pub image: u32,
    pub answer: Stepped,
    pub after: &'static str,
}

#[derive(Clone, Copy)]
pub struct Load {
    pub name: &'static str,
    pub words: &'static str,
    pub refusal: Refusal,
}
