//! The ward of twelve nurses, as in `examples/ward.txt`.

pub const WARD_TEXT: &str = "SCENARIO = ward12

WEEKS = 4

SKILLS = 4
HeadNurse
Nurse
Caretaker
Trainee

SHIFT_TYPES = 4
Early (2,5)
Day (2,28)
Late (2,5)
Night (4,5)

FORBIDDEN_SHIFT_TYPES_SUCCESSIONS
Early 0
Day 1 Early
Late 2 Early Day
Night 3 Early Day Late

CONTRACTS = 3
FullTime (15,22) (3,5) (2,3) 2 1
PartTime (7,15) (3,5) (2,5) 2 1
HalfTime (5,11) (3,5) (3,5) 1 1

NURSES = 12
Amara FullTime 2 HeadNurse Nurse
Beatriz FullTime 2 HeadNurse Nurse
Chidi FullTime 1 Nurse
Daria FullTime 1 Nurse
Emre PartTime 1 Nurse
Freya HalfTime 2 Nurse Caretaker
Goran HalfTime 2 Nurse Caretaker
Hanna FullTime 1 Caretaker
Ines HalfTime 1 Caretaker
Jonas FullTime 1 Caretaker
Keiko FullTime 2 Caretaker Trainee
Luca FullTime 1 Trainee

HISTORY
0 ward12

NURSE_HISTORY
Amara 0 0 Late 1 3 0
Beatriz 0 0 None 0 0 3
Chidi 0 0 Early 1 2 0
Daria 0 0 None 0 0 4
Emre 0 0 Early 2 5 0
Freya 0 0 Late 4 5 0
Goran 0 0 Night 2 2 0
Hanna 0 0 Early 3 5 0
Ines 0 0 Day 4 5 0
Jonas 0 0 Late 2 3 0
Keiko 0 0 Day 3 4 0
Luca 0 0 None 0 0 4

WEEK_DATA
ward12

REQUIREMENTS
Early HeadNurse (1,1) (0,0) (0,0) (1,1) (0,0) (0,0) (0,1)
Early Nurse (0,0) (1,1) (1,1) (0,0) (0,0) (0,0) (0,0)
Early Caretaker (0,0) (0,0) (0,1) (0,0) (0,0) (0,0) (0,0)
Early Trainee (0,0) (0,0) (0,0) (0,0) (0,0) (0,1) (0,0)
Day HeadNurse (0,0) (0,0) (0,0) (0,0) (0,0) (0,0) (0,0)
Day Nurse (1,1) (1,1) (1,1) (0,0) (0,0) (0,0) (0,0)
Day Caretaker (0,0) (0,0) (0,0) (1,2) (0,0) (0,0) (0,1)
Day Trainee (0,0) (1,1) (0,0) (0,0) (0,0) (0,0) (0,0)
Late HeadNurse (0,0) (0,1) (1,1) (0,0) (0,0) (0,0) (0,1)
Late Nurse (0,0) (0,0) (0,0) (1,2) (0,1) (0,0) (0,0)
Late Caretaker (0,0) (0,0) (2,2) (1,1) (2,2) (2,2) (0,0)
Late Trainee (0,0) (0,0) (0,0) (0,0) (0,0) (0,1) (0,0)
Night HeadNurse (0,1) (0,0) (0,0) (0,0) (0,0) (0,0) (0,0)
Night Nurse (2,2) (1,1) (1,1) (2,2) (0,0) (1,1) (0,0)
Night Caretaker (0,0) (0,1) (1,1) (2,2) (1,1) (0,0) (0,0)
Night Trainee (0,0) (1,1) (1,1) (0,1) (1,1) (0,1) (0,0)

SHIFT_OFF_REQUESTS = 8
Beatriz Early Mon
Chidi Late Tue
Chidi Any Sat
Daria Night Wed
Goran Any Sun
Keiko Any Wed
Keiko Any Sun
Luca Any Fri

WEEK_DATA
ward12

REQUIREMENTS
Early HeadNurse (0,0) (0,0) (0,0) (0,0) (0,0) (0,0) (0,0)
Early Nurse (0,0) (0,0) (0,0) (0,0) (0,0) (0,0) (0,0)
Early Caretaker (0,0) (1,1) (1,1) (1,1) (0,0) (0,0) (0,0)
Early Trainee (0,0) (0,0) (0,0) (0,0) (0,0) (0,0) (0,0)
Day HeadNurse (0,0) (0,0) (0,0) (0,0) (0,0) (1,1) (0,0)
Day Nurse (0,0) (0,0) (0,0) (1,1) (1,1) (0,0) (0,0)
Day Caretaker (0,0) (0,0) (0,0) (0,0) (0,0) (0,0) (0,1)
Day Trainee (1,1) (0,0) (0,0) (0,0) (0,0) (0,0) (0,0)
Late HeadNurse (0,0) (0,0) (0,0) (0,0) (0,0) (0,0) (0,0)
Late Nurse (0,0) (1,1) (0,0) (0,0) (0,0) (0,0) (0,0)
Late Caretaker (0,0) (1,1) (2,2) (0,0) (1,1) (0,0) (0,0)
Late Trainee (0,0) (0,0) (1,1) (0,0) (0,0) (0,0) (0,0)
Night HeadNurse (0,0) (0,0) (1,1) (0,0) (0,0) (0,0) (0,0)
Night Nurse (2,3) (1,1) (2,2) (0,1) (1,1) (2,2) (0,0)
Night Caretaker (0,0) (0,1) (0,0) (1,1) (0,0) (0,0) (1,1)
Night Trainee (0,0) (1,2) (1,1) (0,0) (0,0) (0,0) (0,0)

SHIFT_OFF_REQUESTS = 7
Amara Any Thu
Daria Any Wed
Freya Any Thu
Freya Early Sat
Goran Any Thu
Ines Early Thu
Jonas Night Sat

WEEK_DATA
ward12

REQUIREMENTS
Early HeadNurse (0,0) (0,1) (0,0) (0,1) (0,0) (0,0) (0,0)
Early Nurse (1,1) (0,0) (0,0) (0,0) (0,0) (0,0) (0,0)
Early Caretaker (0,0) (0,0) (0,0) (0,0) (0,0) (0,0) (0,0)
Early Trainee (0,1) (0,0) (0,0) (0,0) (0,0) (0,0) (0,0)
Day HeadNurse (0,0) (0,0) (0,0) (0,0) (0,0) (0,0) (0,0)
Day Nurse (0,0) (0,0) (1,1) (0,0) (0,0) (0,0) (0,0)
Day Caretaker (0,0) (1,1) (1,1) (1,1) (2,2) (0,0) (1,1)
Day Trainee (0,0) (1,1) (1,1) (1,2) (1,1) (0,0) (0,0)
Late HeadNurse (0,0) (0,0) (0,0) (0,0) (0,0) (0,0) (0,0)
Late Nurse (0,0) (0,0) (1,1) (1,1) (1,1) (1,1) (0,0)
Late Caretaker (1,1) (1,1) (0,0) (2,2) (1,1) (0,0) (0,0)
Late Trainee (0,0) (0,0) (0,0) (1,1) (0,0) (0,0) (0,0)
Night HeadNurse (0,1) (0,0) (0,0) (0,0) (1,1) (0,0) (0,0)
Night Nurse (0,0) (0,0) (2,2) (0,0) (0,0) (0,0) (0,0)
Night Caretaker (0,1) (1,1) (0,0) (0,0) (0,0) (0,0) (0,0)
Night Trainee (0,0) (0,0) (0,0) (0,0) (0,0) (0,0) (0,0)

SHIFT_OFF_REQUESTS = 14
Amara Day Wed
Amara Any Fri
Freya Any Sun
Goran Night Tue
Goran Any Wed
Goran Any Fri
Hanna Any Tue
Hanna Any Sat
Ines Any Tue
Jonas Day Mon
Keiko Any Mon
Keiko Late Tue
Keiko Day Wed
Keiko Any Thu

WEEK_DATA
ward12

REQUIREMENTS
Early HeadNurse (0,0) (0,1) (0,0) (0,0) (0,0) (1,1) (0,1)
Early Nurse (0,0) (0,0) (1,1) (0,0) (0,1) (0,0) (0,0)
Early Caretaker (0,0) (1,1) (1,1) (1,1) (0,0) (1,1) (0,0)
Early Trainee (0,0) (0,0) (0,0) (0,0) (0,1) (0,0) (0,0)
Day HeadNurse (0,1) (0,1) (0,0) (0,0) (0,0) (0,0) (0,0)
Day Nurse (0,0) (1,1) (0,0) (1,1) (0,0) (0,1) (0,0)
Day Caretaker (0,0) (0,0) (0,0) (0,0) (0,0) (0,0) (0,0)
Day Trainee (0,0) (0,0) (0,0) (0,0) (0,0) (0,0) (0,0)
Late HeadNurse (0,0) (0,0) (0,0) (0,0) (0,0) (0,0) (0,1)
Late Nurse (2,2) (1,1) (1,1) (1,1) (1,1) (1,1) (0,0)
Late Caretaker (0,1) (1,1) (1,2) (1,1) (1,1) (0,0) (1,1)
Late Trainee (0,0) (0,0) (0,0) (0,0) (0,0) (0,0) (0,0)
Night HeadNurse (0,0) (0,0) (0,0) (0,0) (0,0) (0,0) (0,0)
Night Nurse (0,0) (0,0) (0,0) (1,1) (1,1) (0,0) (1,1)
Night Caretaker (0,0) (0,0) (1,2) (0,1) (1,1) (0,1) (0,0)
Night Trainee (0,0) (0,0) (1,2) (1,1) (0,0) (0,0) (0,0)

SHIFT_OFF_REQUESTS = 9
Amara Early Fri
Amara Any Sat
Amara Night Sun
Chidi Night Mon
Emre Any Fri
Freya Any Sun
Ines Day Mon
Ines Any Sat
Keiko Day Thu

SOLUTION
0 ward12

ASSIGNMENTS = 52
Amara Wed Late HeadNurse
Amara Thu Late Nurse
Amara Fri Late HeadNurse
Beatriz Mon Early HeadNurse
Beatriz Tue Early Nurse
Beatriz Wed Early Nurse
Beatriz Thu Early HeadNurse
Beatriz Fri Early Nurse
Chidi Tue Night Nurse
Chidi Wed Night Nurse
Chidi Thu Night Nurse
Chidi Fri Night Nurse
Chidi Sat Night Nurse
Daria Mon Day Nurse
Daria Tue Day Nurse
Daria Wed Day Nurse
Daria Sun Night Nurse
Emre Mon Night Nurse
Emre Tue Night Nurse
Emre Wed Night Nurse
Emre Thu Night Nurse
Emre Fri Night Nurse
Freya Tue Late Caretaker
Freya Wed Late Caretaker
Freya Thu Late Caretaker
Freya Fri Late Caretaker
Freya Sat Late Caretaker
Goran Mon Night Nurse
Goran Tue Night Caretaker
Goran Wed Night Caretaker
Goran Thu Night Caretaker
Hanna Tue Late Caretaker
Hanna Wed Late Caretaker
Hanna Thu Late Caretaker
Hanna Fri Late Caretaker
Hanna Sat Late Caretaker
Ines Tue Day Caretaker
Ines Wed Day Caretaker
Ines Thu Night Caretaker
Ines Fri Night Caretaker
Jonas Wed Late Caretaker
Jonas Thu Late Caretaker
Jonas Fri Late Caretaker
Keiko Tue Day Trainee
Keiko Wed Day Trainee
Keiko Thu Day Caretaker
Keiko Fri Day Caretaker
Keiko Sat Day Caretaker
Luca Tue Night Trainee
Luca Wed Night Trainee
Luca Thu Night Trainee
Luca Fri Night Trainee

SOLUTION
1 ward12

ASSIGNMENTS = 45
Amara Wed Day HeadNurse
Amara Thu Day Nurse
Amara Fri Day Nurse
Amara Sat Day HeadNurse
Beatriz Mon Night Nurse
Beatriz Tue Night Nurse
Beatriz Wed Night HeadNurse
Beatriz Sun Early HeadNurse
Chidi Tue Night Nurse
Chidi Wed Night Nurse
Chidi Thu Night Nurse
Chidi Fri Night Nurse
Chidi Sat Night Nurse
Daria Mon Night Nurse
Daria Tue Night Nurse
Daria Wed Night Nurse
Daria Thu Night Nurse
Emre Tue Late Nurse
Emre Wed Night Nurse
Emre Thu Night Nurse
Freya Sat Night Nurse
Freya Sun Night Caretaker
Goran Mon Night Caretaker
Goran Tue Night Caretaker
Goran Wed Night Nurse
Goran Thu Night Caretaker
Goran Fri Night Nurse
Hanna Wed Late Caretaker
Hanna Thu Late Caretaker
Hanna Fri Late Caretaker
Ines Mon Early Caretaker
Ines Tue Early Caretaker
Ines Wed Early Caretaker
Ines Thu Early Caretaker
Jonas Tue Late Caretaker
Jonas Wed Late Caretaker
Jonas Thu Late Caretaker
Keiko Tue Night Trainee
Keiko Wed Night Trainee
Keiko Thu Night Caretaker
Keiko Sun Late Caretaker
Luca Mon Day Trainee
Luca Tue Late Trainee
Luca Wed Late Trainee
Luca Thu Late Trainee

SOLUTION
2 ward12

ASSIGNMENTS = 52
Amara Tue Night HeadNurse
Amara Wed Night Nurse
Amara Thu Night HeadNurse
Amara Fri Night HeadNurse
Beatriz Mon Early Nurse
Beatriz Tue Early Nurse
Beatriz Wed Late Nurse
Beatriz Sat Late Nurse
Beatriz Sun Late HeadNurse
Chidi Wed Late Nurse
Chidi Thu Late Nurse
Chidi Fri Late Nurse
Chidi Sat Late Nurse
Daria Tue Day Nurse
Daria Wed Day Nurse
Daria Thu Day Nurse
Emre Mon Night Nurse
Emre Tue Night Nurse
Emre Wed Night Nurse
Emre Sun Night Nurse
Freya Mon Night Caretaker
Freya Tue Night Caretaker
Freya Sat Late Nurse
Freya Sun Late Caretaker
Goran Tue Late Nurse
Goran Wed Late Nurse
Goran Thu Late Caretaker
Goran Fri Late Nurse
Goran Sat Late Nurse
Hanna Mon Day Caretaker
Hanna Tue Day Caretaker
Hanna Wed Day Caretaker
Hanna Thu Day Caretaker
Hanna Fri Day Caretaker
Ines Tue Day Caretaker
Ines Wed Day Caretaker
Ines Thu Day Caretaker
Ines Fri Day Caretaker
Jonas Mon Late Caretaker
Jonas Tue Late Caretaker
Jonas Wed Late Caretaker
Jonas Thu Late Caretaker
Jonas Fri Late Caretaker
Keiko Mon Late Caretaker
Keiko Tue Late Caretaker
Keiko Wed Late Caretaker
Keiko Thu Late Trainee
Keiko Sun Day Caretaker
Luca Tue Day Trainee
Luca Wed Day Trainee
Luca Thu Day Trainee
Luca Fri Day Trainee

SOLUTION
3 ward12

ASSIGNMENTS = 50
Amara Mon Day Nurse
Amara Tue Day Nurse
Amara Wed Day HeadNurse
Amara Thu Day HeadNurse
Amara Fri Night Nurse
Beatriz Mon Late Nurse
Beatriz Tue Late Nurse
Beatriz Wed Late Nurse
Beatriz Sat Early HeadNurse
Beatriz Sun Early Nurse
Chidi Wed Late Nurse
Chidi Thu Late Nurse
Chidi Fri Late Nurse
Chidi Sat Late Nurse
Daria Mon Day Nurse
Daria Tue Day Nurse
Daria Wed Day Nurse
Daria Thu Day Nurse
Emre Mon Night Nurse
Emre Tue Night Nurse
Emre Wed Night Nurse
Emre Thu Night Nurse
Emre Sun Late Nurse
Freya Mon Late Nurse
Freya Tue Late Nurse
Freya Wed Late Caretaker
Freya Sun Night Nurse
Goran Wed Early Nurse
Goran Thu Early Nurse
Goran Fri Early Caretaker
Goran Sat Early Caretaker
Goran Sun Early Caretaker
Hanna Tue Early Caretaker
Hanna Wed Early Caretaker
Hanna Thu Early Caretaker
Hanna Fri Early Caretaker
Ines Wed Late Caretaker
Ines Thu Late Caretaker
Ines Fri Late Caretaker
Jonas Wed Night Caretaker
Jonas Thu Night Caretaker
Jonas Fri Night Caretaker
Jonas Sat Night Caretaker
Keiko Mon Late Caretaker
Keiko Tue Late Caretaker
Keiko Wed Late Caretaker
Keiko Sun Late Caretaker
Luca Tue Night Trainee
Luca Wed Night Trainee
Luca Thu Night Trainee
";
